// The points of one block: "Point rows are worked out over the final curves."
#![tactic(auto)]

ghost use Rattle.std.specs.Prelude.{◌≡◌, [], ◌∷◌, ◌+◌, ◌*◌, ◌/◌, ◌%◌, ◌<◌, length, get_or};
ghost use Rattle.lists.specs.Lists.{overlay};
ghost use Rattle.cells.specs.Extents.{Sized};
ghost use Rattle.cells.specs.Grid.{cells, upper_neighbours};
ghost use Rattle.cells.specs.Row.{row_of, numbers_at};
ghost use Rattle.lines.specs.Lines.{line_count};
ghost use Rattle.cutting.specs.Cutting.{most_blocks};
ghost use Rattle.joiner.specs.Job.{key_of};
ghost use Rattle.pass_survey.specs.Survey.{on_line};
ghost use Rattle.pass_enrol.specs.EnrolledRows.{Lies, position_in};
ghost use Rattle.pass_point.specs.FoundPoints.{final_in, found_row, found_among, found_cells, finals_in, PointCell, Stored, Room};

use blocks::Block;
use cells::Triple;
use joiner::KEY_BASE;
use lines::{line_at, line_count, line_with};
use lists::{read_or, write_front};
use rows::row_of;

// The final numbers of curves: those of a block begin at place `from`.
#[derive(Clone, Copy)]
struct Finals<'a> {
    numbers: &'a [u32],
    from: u32,
}

// ---- the row of a point cell

// The final number of number n of the block: 0 stays 0. A number that the final numbers do not reach is read as 0. Not an entry.
#[tactic(auto, using(crate::proofs::PointLaws::final_none, crate::proofs::PointLaws::final_some))]
pub fn final_number(numbers: &[u32], from: u32, n: u32) -> u32
    ensures { result ≡ final_in numbers.now from n }
{
    if n == 0 {
        return 0;
    }
    read_or(numbers, from as usize + (n as usize - 1), 0)
}

// The final numbers of six.
#[tactic(auto, unfolding(crate::specs::FoundPoints::finals_in))]
fn finals_of(a: [u32; 6], f: Finals) -> [u32; 6]
    ensures { result ≡ finals_in f.entry.numbers.now f.entry.from a }
{
    a.map(|n| final_number(f.numbers, f.from, n))
}

// The numbers of the upper neighbours of a point cell.
fn around(map: &[u32], e: Triple, p: usize) -> [u32; 6]
    requires { PointCell e map.now p }
    ensures { result ≡ numbers_at map.now (upper_neighbours e p) }
{
    let w = 2 * e.x - 1;
    let wh = w * (2 * e.y - 1);
    [
        map[p - 1],
        map[p + 1],
        map[p - w],
        map[p + w],
        map[p - wh],
        map[p + wh],
    ]
}

// The row of six numbers over the final curves.
fn row_over(a: [u32; 6], f: Finals) -> [u32; 6]
    ensures { result ≡ row_of (finals_in f.entry.numbers.now f.entry.from a) }
{
    // All of them 0, the common case.
    if a == [0; 6] {
        return [0; 6];
    }
    row_of(finals_of(a, f))
}

// The row of a point cell.
#[tactic(auto, using(crate::proofs::PointLaws::row_of_around))]
fn found_row(map: &[u32], e: Triple, p: usize, f: Finals) -> [u32; 6]
    requires { PointCell e map.now p }
    ensures { result ≡ found_row e f.entry.numbers.now f.entry.from map.now p }
{
    row_over(around(map, e, p), f)
}

// ---- counting

// The count with the points on line l: point cells whose row has an entry.
fn count_line(map: &[u32], e: Triple, l: usize, f: Finals, count: u32) -> u32
    requires { Sized 64 e × (length map.now ≡ cells e) × (l < line_count e) × (count + length (found_among e f.numbers.now f.from map.now (on_line e 0 l)) < 4294967296) }
    ensures { result ≡ count + length (found_among e f.entry.numbers.now f.entry.from map.now (on_line e 0 l)) }
{
    let line = line_at(e, 3, l);
    let mut n = count;
    for k in 0..line.count {
        let row = found_row(map, e, line.base + (line.start + 2 * k), f);
        n += u32::from(row[0] != 0);
    }
    n
}

// How many point cells of a block are points of the volume. A number that the curves' final numbers do not reach is read as 0. Not an entry.
pub fn count_points(map: &[u32], e: Triple, numbers: &[u32], from: u32) -> u32
    requires { Sized 64 e × (length map.now ≡ cells e) }
    ensures { result ≡ length (found_cells e numbers.now from map.now) }
{
    let f = Finals { numbers, from };
    let mut n = 0;
    for l in 0..line_count(e) {
        n = count_line(map, e, l, f, n);
    }
    n
}

// ---- storing

// Stores a point cell, which stands at a position of the volume, if it is a point, and answers the next place.
fn store_cell(
    keys: &mut [u64],
    rows: &mut [u32],
    at: usize,
    map: &[u32],
    v: Triple,
    block: Block,
    b: usize,
    f: Finals,
    p: usize,
    position: u64,
) -> usize
    requires { PointCell block.size map.now p × (b < most_blocks) × (position ≡ position_in v block p) × (position < 8589934592) × Room (length (found_among block.size f.numbers.now f.from map.now (p ∷ []))) at (length keys.old) (length rows.old) }
    ensures { Stored v block b map.now f.entry.numbers.now f.entry.from (p ∷ []) at keys.old rows.old keys.new rows.new result }
{
    let row = found_row(map, block.size, p, f);
    if row[0] == 0 {
        return at;
    }
    keys[at] = position * KEY_BASE + b as u64;
    write_front(rows, 6 * at, &row, 6);
    at + 1
}

// Stores the points on line l.
fn store_line(
    keys: &mut [u64],
    rows: &mut [u32],
    at: usize,
    map: &[u32],
    v: Triple,
    block: Block,
    b: usize,
    f: Finals,
    l: usize,
) -> usize
    requires { Lies v block × (length map.now ≡ cells block.size) × (b < most_blocks) × (l < line_count block.size) × Room (length (found_among block.size f.numbers.now f.from map.now (on_line block.size 0 l))) at (length keys.old) (length rows.old) }
    ensures { Stored v block b map.now f.entry.numbers.now f.entry.from (on_line block.size 0 l) at keys.old rows.old keys.new rows.new result }
{
    let h = 2 * block.size.y - 1;
    let y = l % h;
    let z = l / h;
    let line = line_with(block.size, 3, l, y % 2 + z % 2);
    let first = block.embed(v, Triple { x: 0, y, z });
    let mut n = at;
    for k in 0..line.count {
        let x = line.start + 2 * k;
        n = store_cell(
            keys,
            rows,
            n,
            map,
            v,
            block,
            b,
            f,
            line.base + x,
            first + x as u64,
        );
    }
    n
}

// Stores key and row of each point of a block from place `at` on. Not an entry.
pub fn store_points(
    keys: &mut [u64],
    rows: &mut [u32],
    at: usize,
    map: &[u32],
    v: Triple,
    block: Block,
    b: usize,
    numbers: &[u32],
    from: u32,
)
    requires { Lies v block × (length map.now ≡ cells block.size) × (b < most_blocks) × Room (length (found_cells block.size numbers.now from map.now)) at (length keys.old) (length rows.old) }
    ensures keys { keys.new
        ≡ overlay keys.old at (λ i. key_of (position_in v block (get_or (found_cells block.size numbers.now from map.now) i 0)) b) (length (found_cells block.size numbers.now from map.now)) }
    ensures rows { rows.new
        ≡ overlay rows.old (6 * at) (λ i. get_or (found_row block.size numbers.now from map.now (get_or (found_cells block.size numbers.now from map.now) (i / 6) 0)) (i % 6) 0) (6 * length (found_cells block.size numbers.now from map.now)) }
{
    let f = Finals { numbers, from };
    let mut n = at;
    for l in 0..line_count(block.size) {
        n = store_line(keys, rows, n, map, v, block, b, f, l);
    }
}
