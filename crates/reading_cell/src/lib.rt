// The lookup in a closed job: the final number of a cell, named by its place in the volume.
#![tactic(auto)]

ghost use Rattle.std.specs.Prelude.{◌≡◌, ◌&&◌, [], ◌+◌, ◌^◌, ◌<◌, ltb};
ghost use Rattle.cells.specs.Box.{triple, index};
ghost use Rattle.cells.specs.Grid.{sides};
ghost use Rattle.cutting.specs.Cutting.{blocks};
ghost use Rattle.joiner.specs.Stages.{has_cell};
ghost use Rattle.joiner.specs.Calls.{look, answer};
ghost use Rattle.joiner.specs.Outcomes.{CallStep, bisect, point_number};
ghost use Rattle.blocks.specs.Blocks.{AnyExtents};
ghost use Rattle.job.specs.JobState.{state_by};
ghost use Rattle.refusals.specs.Refusals.{number_of};
ghost use Rattle.judge.specs.Judge.{lengths_of};
ghost use Rattle.reading_cell.specs.Inner.{lent_in, look_judged, halved_of, order_at, HasPlace, number_in, handed_in, look_in, number_read};

use blocks::{Block, Cuts};
use cells::Triple;
use job::{Job, Stage};
use judge::{
    CallName, Entry, KindLengths, Lengths, NO_KIND_LENGTHS, NO_LENGTHS, entry_of, fits, judge_map,
    number_stands, opened,
};
use lists::read_or;
use pass_point::final_number;
use refusals::Refusal;

// The tables that a lookup is lent: ticks, the block table, the final numbers of faces and of curves, the positions of points.
#[derive(Clone, Copy)]
pub struct LookupTables<'a> {
    pub ticks: &'a [u32],
    pub blocks: &'a [u32],
    pub faces: &'a [u32],
    pub curves: &'a [u32],
    pub points: &'a [u64],
}

// ---- the tests

// Whether there is such a block, and it has the cell.
fn has_place(cuts: &Cuts, b: u32, c: Triple) -> bool
    ensures { AnyExtents cuts.now (λ k. result ≡ (ltb b (blocks k) && has_cell k b c)) }
{
    cuts.has_block(b) && cuts.block_at(b as usize).has_cell(c)
}

impl LookupTables<'_> {
    // The lengths of the tables. Not an entry.
    pub fn lengths(&self) -> Lengths
        ensures { result ≡ lengths_of (lent_in self.now) }
    {
        Lengths {
            ticks: self.ticks.len(),
            blocks: self.blocks.len(),
            numbers: KindLengths {
                faces: self.faces.len(),
                curves: self.curves.len(),
                ..NO_KIND_LENGTHS
            },
            firsts: KindLengths {
                points: self.points.len(),
                ..NO_KIND_LENGTHS
            },
            ..NO_LENGTHS
        }
    }
}

// The refusal, that of the lowest number that applies; but for the final number that is handed out.
fn refuse(
    job: Job,
    cuts: &Cuts,
    tables: &LookupTables,
    b: u32,
    m: &[u32],
    c: Triple,
) -> Result<(), Refusal>
    ensures { number_of result ≡ look_judged (state_by job cuts.now (lent_in tables.now)) b m.now c }
{
    opened(job, cuts, Stage::Closed)?;
    if !has_place(cuts, b, c) {
        return Err(Refusal::NoSuchPlace);
    }
    let lengths = tables.lengths();
    let block = cuts.block_at(b as usize);
    let count = cuts.block_count();
    let whole = fits(CallName::Lookup, count, block, job, lengths, m.len());
    judge_map(job, block, entry_of(tables.blocks, b), whole, m)
}

// ---- a point by its position

// Some places of a table, from one on.
#[derive(Clone, Copy)]
struct Span {
    from: u32,
    size: u32,
}

// The half of these places in which, or after which, the first entry stands that is not below v.
#[tactic(auto, unfolding(crate::specs::Inner::halved_of))]
fn halved(table: &[u64], s: Span, v: u64) -> Span
    requires { (0 < s.size) × (s.from + s.size < 2 ^ 32) }
    ensures { result ≡ halved_of table.now s v }
{
    let half = s.size / 2;
    let middle = s.from + half;
    if read_or(table, middle as usize, 0) < v {
        Span {
            from: middle + 1,
            size: s.size - half - 1,
        }
    } else {
        Span {
            from: s.from,
            size: half,
        }
    }
}

// The first of `count` ascending entries that is not below v.
fn bisected(table: &[u64], count: u32, v: u64) -> u32
    ensures { result ≡ bisect count table.now 0 count v }
{
    let mut s = Span {
        from: 0,
        size: count,
    };
    while s.size != 0 {
        s = halved(table, s, v);
    }
    s.from
}

// The number of the point at position v, 0 where there is none.
#[tactic(auto, unfolding(joiner::specs::Outcomes::point_number))]
fn point_number(table: &[u64], count: u32, v: u64) -> u32
    ensures { result ≡ point_number table.now count v }
{
    let i = bisected(table, count, v);
    if i < count && read_or(table, i as usize, 0) == v {
        i + 1
    } else {
        0
    }
}

// ---- the number of a cell

// The order of the cell at a place.
#[tactic(auto, unfolding(crate::specs::Inner::order_at))]
fn order_at(c: Triple) -> usize
    ensures { result ≡ order_at c }
{
    3 - (c.x % 2 + c.y % 2 + c.z % 2)
}

// The position in a volume of extents e of the cell at a place of it, one of the block's.
fn position(e: Triple, block: Block, c: Triple) -> u64
    requires { HasPlace e block c }
    ensures { result ≡ index (sides e) c }
{
    let back = Triple {
        x: c.x - 2 * block.origin.x,
        y: c.y - 2 * block.origin.y,
        z: c.z - 2 * block.origin.z,
    };
    block.embed(e, back)
}

// The final number of a cell of the block that has number n in the map. A point goes by its position alone. Not an entry.
#[tactic(auto, unfolding(crate::specs::Inner::number_in))]
pub fn number_of(job: Job, block: Block, d: Entry, tables: &LookupTables, n: u32, c: Triple) -> u32
    requires { HasPlace (triple job.nx job.ny job.nz) block c }
    ensures { result ≡ number_in job d tables.now.faces.now tables.now.curves.now tables.now.points.now n c }
{
    match order_at(c) {
        3 => n,
        2 => final_number(tables.faces, d.face_from, n),
        1 => final_number(tables.curves, d.curve_from, n),
        _ => {
            let v = position(job.extents(), block, c);
            point_number(tables.points, job.numbered.points, v)
        }
    }
}

// Whether the final number of number n of a block is one of the closed table's. 0 has none.
#[tactic(auto, unfolding(crate::specs::Inner::handed_in))]
fn handed_stands(numbers: &[u32], most: u32, from: u32, n: u32) -> bool
    ensures { result ≡ handed_in numbers.now most from n }
{
    n == 0 || number_stands(numbers, most, from as usize + (n as usize - 1))
}

// Whether the final number that a cell of the block hands out is one of the closed table's. Voxels and points hand out none. Not an entry.
#[tactic(auto, unfolding(crate::specs::Inner::look_in))]
pub fn number_handed(job: Job, d: Entry, tables: &LookupTables, n: u32, c: Triple) -> bool
    ensures { result ≡ look_in job d tables.now.faces.now tables.now.curves.now n c }
{
    match order_at(c) {
        2 => handed_stands(tables.faces, job.numbered.faces, d.face_from, n),
        1 => handed_stands(tables.curves, job.numbered.curves, d.curve_from, n),
        _ => true,
    }
}

// The final number of the cell at place c of the volume, one of the block's: the code at a voxel, 0 where the cell is inactive in the volume.
// The final number that is handed out is tested last.
pub fn lookup(
    job: Job,
    cuts: &Cuts,
    tables: &LookupTables,
    block: u32,
    m: &[u32],
    c: Triple,
) -> Result<u32, Refusal>
    ensures { CallStep
        (state_by job cuts.now (lent_in tables.now))
        (look block m.now c) (answer (number_of result) (number_read result) [])
        (state_by job cuts.now (lent_in tables.now)) }
{
    refuse(job, cuts, tables, block, m, c)?;
    let r = cuts.block_at(block as usize);
    let p = r.local(c);
    let d = entry_of(tables.blocks, block);
    let n = read_or(m, p, 0);
    if !number_handed(job, d, tables, n, c) {
        return Err(Refusal::StrayLabel);
    }
    Ok(number_of(job, r, d, tables, n, c))
}
