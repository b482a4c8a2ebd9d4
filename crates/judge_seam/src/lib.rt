// The tests of a seam step: the judge's, those of the second block, and whether the blocks differ in the layer that they share.
#![tactic(auto)]

ghost use Rattle.std.specs.Prelude.{◌≡◌, true, ◌+◌, ◌*◌, ◌≤◌, length};
ghost use Rattle.cells.specs.Extents.{Sized};
ghost use Rattle.cells.specs.Grid.{cells};
ghost use Rattle.cutting.specs.Cutting.{good_cut, seam, most_blocks};
ghost use Rattle.joiner.specs.Job.{ticks_per_block};
ghost use Rattle.joiner.specs.Stages.{seam_axis};
ghost use Rattle.joiner.specs.Calls.{join, layers_differ};
ghost use Rattle.joiner.specs.Declines.{refusal};
ghost use Rattle.blocks.specs.Blocks.{axis_number};
ghost use Rattle.job.specs.JobState.{job_by, state_by};
ghost use Rattle.judge.specs.Judge.{entries_of, lengths_of, late_of};
ghost use Rattle.refusals.specs.Refusals.{number_of};
ghost use Rattle.judge_seam.specs.Tests.{lent, fits_both, upper_stands, AnySeam, SharedBy};

use blocks::{Block, Cuts};
use cells::Axis;
use job::{Job, Stage};
use joiner::TICKS_PER_BLOCK;
use judge::{
    CallName, Entry, KindLengths, Lengths, NO_KIND_LENGTHS, NO_LENGTHS, entry_of, fits, judge_map,
    links_stand, map_fits, map_stands, opened,
};
use pass_seam::{Layer, Side, columns_of, layer_of, layers_differ, rows_of};
use refusals::Refusal;
use stages::is_ticked;

// The layer that the blocks share, in the map of each.
#[derive(Clone, Copy)]
pub struct Shared {
    pub lower: Layer,
    pub upper: Layer,
    pub columns: u16,
    pub rows: u16,
}

// The tables that a seam step is lent.
#[derive(Clone, Copy)]
struct Tables<'a> {
    ticks: &'a [u32],
    blocks: &'a [u32],
    face_links: &'a [u32],
    curve_links: &'a [u32],
}

// An axis by number: 1 for x, 2 for y, 3 for z.
pub fn axis_number(axis: Axis) -> u32
    ensures { result ≡ axis_number axis }
{
    axis as u32
}

// The number of a seam's step.
// Kept: the axis by number. This function and `shared_layer` answer for every number; an `Axis` would ask more of callers.
pub fn step_of(lower: u32, axis: u32) -> usize
    ensures { result ≡ ticks_per_block * lower + axis }
{
    TICKS_PER_BLOCK * lower as usize + axis as usize
}

// Whether maps and tables have the stated lengths.
#[tactic(auto, unfolding(crate::specs::Tests::fits_both))]
fn trays_fit(
    job: Job,
    count: usize,
    low: Block,
    high: Block,
    t: Tables,
    m: &[u32],
    n: &[u32],
) -> bool
    requires { (count ≤ most_blocks) × Sized 64 low.size × Sized 64 high.size }
    ensures { result ≡ fits_both count low.size high.size (entries_of job)
        (lengths_of (lent t.entry.ticks.now t.entry.blocks.now t.entry.face_links.now t.entry.curve_links.now))
        (length m.now) (length n.now) }
{
    let lengths = Lengths {
        ticks: t.ticks.len(),
        blocks: t.blocks.len(),
        links: KindLengths {
            faces: t.face_links.len(),
            curves: t.curve_links.len(),
            ..NO_KIND_LENGTHS
        },
        ..NO_LENGTHS
    };
    fits(CallName::Seam, count, low, job, lengths, m.len()) && map_fits(high, n.len())
}

// Whether the upper block's map keeps to its entry, and the links of both blocks may be followed.
#[tactic(auto, unfolding(crate::specs::Tests::upper_stands))]
fn upper_stands(job: Job, high: Block, d: Entry, g: Entry, n: &[u32], t: Tables) -> bool
    requires { Sized 64 high.size × (length n.now ≡ cells high.size) }
    ensures { result ≡ upper_stands high.size d g job.entries.faces job.entries.curves n.now t.entry.face_links.now t.entry.curve_links.now }
{
    map_stands(n, high, g, job.entries.faces, job.entries.curves)
        && links_stand(t.face_links, t.curve_links, d)
        && links_stand(t.face_links, t.curve_links, g)
}

// The layer that two blocks share across an axis. Not an entry.
pub fn shared_layer(low: Block, high: Block, axis: u32) -> Shared
    requires { Sized 64 low.size × Sized 64 high.size }
    ensures { SharedBy low high axis result }
{
    Shared {
        lower: layer_of(low.size, axis, true),
        upper: layer_of(high.size, axis, false),
        columns: columns_of(low.size, axis),
        rows: rows_of(low.size, axis),
    }
}

// Whether the blocks of a seam differ in the layer that they share.
#[tactic(auto, using(crate::proofs::TestLaws::differ_told))]
fn differ(low: Block, high: Block, axis: u32, m: &[u32], n: &[u32]) -> bool
    requires { Sized 64 low.size × Sized 64 high.size }
    ensures { AnySeam axis low high (λ k b c. result ≡ layers_differ k (join b c m.now n.now)) }
{
    let s = shared_layer(low, high, axis);
    let below = Side {
        map: m,
        layer: s.lower,
    };
    let above = Side {
        map: n,
        layer: s.upper,
    };
    layers_differ(below, above, s.columns, s.rows)
}

// The refusals by lengths, labels and layers of a call that brings a seam. A full table cannot be met: nothing is added.
fn rest(
    job: Job,
    cuts: &Cuts,
    axis: u32,
    t: Tables,
    lower: u32,
    upper: u32,
    m: &[u32],
    n: &[u32],
) -> Result<(), Refusal>
    requires { (good_cut (job_by job cuts.now).told.cutting ≡ true)
        × (seam (job_by job cuts.now).told.cutting lower upper ≡ true)
        × (axis ≡ seam_axis (job_by job cuts.now).told.cutting lower upper) }
    ensures { number_of result ≡ late_of
        (state_by job cuts.now (lent t.entry.ticks.now t.entry.blocks.now t.entry.face_links.now t.entry.curve_links.now))
        (join lower upper m.now n.now) }
{
    let low = cuts.block_at(lower as usize);
    let high = cuts.block_at(upper as usize);
    let count = cuts.block_count();
    let whole = trays_fit(job, count, low, high, t, m, n);
    let own = entry_of(t.blocks, lower);
    let other = entry_of(t.blocks, upper);
    judge_map(job, low, own, whole, m)?;
    if !upper_stands(job, high, own, other, n, t) {
        return Err(Refusal::StrayLabel);
    }
    if differ(low, high, axis, m, n) {
        return Err(Refusal::LayersDiffer);
    }
    Ok(())
}

// The refusal, the one of the lowest number that applies.
pub fn judge_seam(
    job: Job,
    cuts: &Cuts,
    ticks: &[u32],
    table: &[u32],
    face_links: &[u32],
    curve_links: &[u32],
    lower: u32,
    upper: u32,
    m: &[u32],
    n: &[u32],
) -> Result<(), Refusal>
    ensures { number_of result ≡ refusal
        (state_by job cuts.now (lent ticks.now table.now face_links.now curve_links.now))
        (join lower upper m.now n.now) }
{
    opened(job, cuts, Stage::Seam)?;
    if !cuts.is_seam(lower, upper) {
        return Err(Refusal::NoSuchPlace);
    }
    let axis = axis_number(cuts.seam_axis(lower, upper));
    if is_ticked(ticks, step_of(lower, axis)) {
        return Err(Refusal::DoneAlready);
    }
    let tables = Tables {
        ticks,
        blocks: table,
        face_links,
        curve_links,
    };
    rest(job, cuts, axis, tables, lower, upper, m, n)
}
