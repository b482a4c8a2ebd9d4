// What an enrolment writes for the faces, or the curves, of a block: the key of each number, and its row.
#![tactic(auto)]

ghost use Rattle.std.specs.Prelude.{◌≡◌, true, ◌≢◌, ◌⊎◌, map, ℕ, suc, ◌+◌, ◌-◌, ◌*◌, ◌/◌, ◌%◌, ◌≤◌, ◌<◌, length, get_or};
ghost use Rattle.lists.specs.Lists.{overlay};
ghost use Rattle.cells.specs.Box.{place};
ghost use Rattle.cells.specs.Grid.{sides, cells};
ghost use Rattle.labels.specs.Components.{largest};
ghost use Rattle.lines.specs.Lines.{line_count};
ghost use Rattle.cutting.specs.Cutting.{most_blocks};
ghost use Rattle.joiner.specs.Job.{key_of};
ghost use Rattle.blocks.specs.Blocks.{has_in, local_in};
ghost use Rattle.pass_survey.specs.Survey.{on_line};
ghost use Rattle.pass_enrol.specs.EnrolledRows.{Lies, key_in, shift_by, row_in, key_put, keyed, row_for, FirstKeys};

use blocks::Block;
use cells::Triple;
use joiner::KEY_BASE;
use lines::{line_count, line_with};
use lists::{write_front, write_value};
use rows::row_at;

// ---- keys

// A position in the volume and a block in one number.
#[tactic(auto, unfolding(joiner::specs::Job::key_of))]
fn key_of(position: u64, b: usize) -> u64
    requires { (position < 8589934592) × (b < most_blocks) }
    ensures { result ≡ key_of position b }
{
    position * KEY_BASE + b as u64
}

// A cell with number n writes its key.
#[tactic(auto, unfolding(crate::specs::EnrolledRows::key_put))]
fn key_at(keys: &mut [u64], from: usize, n: u32, key: u64)
    requires { from + n ≤ length keys.old }
    ensures { keys.new ≡ key_put from n key keys.old }
{
    if n != 0 {
        keys[from + (n as usize - 1)] = key;
    }
}

// The cells of order j on line l write their keys, the last one first.
fn key_line(
    keys: &mut [u64],
    from: usize,
    map: &[u32],
    v: Triple,
    block: Block,
    b: usize,
    j: usize,
    l: usize,
)
    requires { Lies v block × (length map.now ≡ cells block.size) × (b < most_blocks) × (j ≤ 2) × (from + largest block.size map.now j ≤ length keys.old) × (l < line_count block.size) }
    ensures { keys.new ≡ keyed v block b map.now from (on_line block.size j l) keys.old }
{
    let h = 2 * block.size.y - 1;
    let y = l % h;
    let z = l / h;
    let line = line_with(block.size, 3 - j, l, y % 2 + z % 2);
    let at = block.embed(v, Triple { x: 0, y, z });
    for k in (0..line.count).rev() {
        let x = line.start + 2 * k;
        key_at(keys, from, map[line.base + x], key_of(at + x as u64, b));
    }
}

// Writes the keys of the numbers of order j from place `from` on: all as if no cell had them, and then the cells' own, the last one first,
// so that what stays is the first one's. Not an entry.
pub fn store_keys(
    keys: &mut [u64],
    from: usize,
    count: usize,
    map: &[u32],
    v: Triple,
    block: Block,
    b: usize,
    j: usize,
)
    requires { Lies v block × (length map.now ≡ cells block.size) × (b < most_blocks) × (j ≤ 2) × (count ≡ largest block.size map.now j) × (from + count ≤ length keys.old) }
    ensures { keys.new ≡ overlay keys.old from (λ i. key_in v block b map.now j (suc i)) count }
{
    write_value(keys, from, count, b as u64);
    let lines = line_count(block.size);
    for l in (0..lines).rev() {
        key_line(keys, from, map, v, block, b, j, l);
    }
}

// ---- rows

// The cell of the block at a position of the volume.
#[tactic(auto, using(cells::proofs::ExtentLaws::layer_low, cells::proofs::ExtentLaws::layer_high), unfolding(cells::specs::Box::place, cells::specs::Grid::sides))]
fn cell_at(v: Triple, block: Block, position: u64) -> usize
    requires { Lies v block × (has_in block (place (sides v) position) ≡ true) }
    ensures { result ≡ local_in block (place (sides v) position) }
{
    let w = 2 * v.x - 1;
    let h = 2 * v.y - 1;
    let p = position as usize;
    block.local(Triple {
        x: p % w,
        y: p / w % h,
        z: p / (w * h),
    })
}

// The row of the cell at a position of the volume: none at position 0.
fn row_for(map: &[u32], v: Triple, block: Block, position: u64) -> [u32; 6]
    requires { Lies v block × (length map.now ≡ cells block.size) × (position ≢ 0 → has_in block (place (sides v) position) ≡ true) }
    ensures { result ≡ row_for v block map.now position }
{
    if position == 0 {
        return [0; 6];
    }
    row_at(map, block.size, cell_at(v, block, position))
}

// An entry of a row with the place of the block's first face added: 0 stays 0.
#[tactic(auto, unfolding(crate::specs::EnrolledRows::shift_by))]
fn shifted(shift: u32, x: u32) -> u32
    requires { (shift ≡ 0) ⊎ (shift + x < 4294967296) }
    ensures { result ≡ shift_by shift x }
{
    if x == 0 {
        return 0;
    }
    shift + x
}

// .. and a row.
fn shifted_row(shift: u32, mut row: [u32; 6]) -> [u32; 6]
    requires { (i : ℕ) → (shift ≡ 0) ⊎ (shift + get_or row i 0 < 4294967296) }
    ensures { (i : ℕ) → get_or result i 0 ≡ shift_by shift (get_or row i 0) }
{
    for x in &mut row {
        *x = shifted(shift, *x);
    }
    row
}

// Writes the rows of the numbers of order j, whose keys stand from place `from` on. A number's first cell is found by its key. Not an entry.
pub fn store_rows(
    rows: &mut [u32],
    from: usize,
    count: usize,
    map: &[u32],
    keys: &[u64],
    v: Triple,
    block: Block,
    j: usize,
    shift: u32,
)
    requires { Lies v block × (length map.now ≡ cells block.size) × (j ≤ 2) × FirstKeys v block map.now j keys.now from count × ((6 - 2 * j) * (from + count) ≤ length rows.old) × ((shift ≡ 0) ⊎ (shift + largest block.size map.now (suc j) < 4294967296)) }
    ensures { rows.new
        ≡ overlay rows.old ((6 - 2 * j) * from) (λ i. row_in block.size shift map.now j (suc (i / (6 - 2 * j))) (i % (6 - 2 * j))) ((6 - 2 * j) * count) }
{
    let width = 6 - 2 * j;
    for i in 0..count {
        let row = row_for(map, v, block, keys[from + i] / KEY_BASE);
        let stored = shifted_row(shift, row);
        write_front(rows, width * (from + i), &stored, width);
    }
}
