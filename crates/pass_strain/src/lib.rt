// The pass that adds a block's readings to the totals, face cell by face cell, line by line.
#![tactic(auto)]

ghost use Rattle.std.specs.Prelude.{◌≡◌, ◌+◌, ◌-◌, ◌*◌, ◌/◌, ◌%◌, ◌≤◌, ◌<◌, length};
ghost use Rattle.cells.specs.Box.{place};
ghost use Rattle.cells.specs.Extents.{Sized};
ghost use Rattle.cells.specs.Grid.{sides};
ghost use Rattle.lines.specs.Lines.{line_count};
ghost use Rattle.pass_survey.specs.Survey.{on_line};
ghost use Rattle.totals.specs.Totals.{reading_at, sums_with, counts_with};
ghost use Rattle.strain_calls.specs.Adding.{gathered, face_taken};
ghost use Rattle.pass_strain.specs.BlockReadings.{brought, input_of, side_number, Sided, side_taken, Beside, Whole, Lies, OwnFace, cell_taken, block_taken, Listed};

use cells::Triple;
use lines::{Line, first_stride, line_with};
use lowest::starts_by;
use pass_point::final_number;
use totals::{reading_at, take_reading};

// What a block brings: its map, the final numbers of faces with the place of its first face among them, and its readings by voxel.
#[derive(Clone, Copy)]
struct BlockInput<'a> {
    map: &'a [u32],
    numbers: &'a [u32],
    from: u32,
    values: &'a [f64],
    kinds: &'a [u8],
}

// A side of a face.
#[derive(Clone, Copy)]
enum FaceSide {
    Lower = 0,
    Higher = 1,
}

// The sides of the voxels below and above a face cell, by their numbers u and w: none for a voxel that is on neither.
fn sides_of(u: u32, w: u32) -> (Option<FaceSide>, Option<FaceSide>)
    ensures { Sided u w result }
{
    let lower = Some(FaceSide::Lower);
    let higher = Some(FaceSide::Higher);
    if u == w {
        (None, None)
    } else if u == 0 {
        (None, lower)
    } else if w == 0 {
        (lower, None)
    } else if u < w {
        (lower, higher)
    } else {
        (higher, lower)
    }
}

// Takes in the reading of voxel v, on this side of face n.
fn take_voxel(
    sums: &mut [f64],
    counts: &mut [u64],
    g: BlockInput,
    n: u32,
    side: Option<FaceSide>,
    v: usize,
)
    requires { (0 < n) × (v < length g.values.now) × (v < length g.kinds.now) }
    ensures sum { sums.new ≡ sums_with sums.old (side_taken n (side_number side) (reading_at g.entry.values.now g.entry.kinds.now v)) }
    ensures count { counts.new ≡ counts_with counts.old (side_taken n (side_number side) (reading_at g.entry.values.now g.entry.kinds.now v)) }
{
    if let Some(s) = side {
        let slot = 2 * (n as usize - 1) + s as usize;
        take_reading(sums, counts, slot, reading_at(g.values, g.kinds, v));
    }
}

// Takes in the readings of the voxels at cell p of face n, but for one that is outside. They stand at places v and v + d of the lists.
fn take_face(
    sums: &mut [f64],
    counts: &mut [u64],
    g: BlockInput,
    e: Triple,
    p: usize,
    a: usize,
    n: u32,
    v: usize,
    d: usize,
)
    requires { (0 < n) × Beside e g.map.now g.values.now g.kinds.now p a v d }
    ensures sum { sums.new ≡ sums_with sums.old (face_taken e g.entry.map.now g.entry.values.now g.entry.kinds.now n p) }
    ensures count { counts.new ≡ counts_with counts.old (face_taken e g.entry.map.now g.entry.values.now g.entry.kinds.now n p) }
{
    let (below, above) = sides_of(g.map[p - a], g.map[p + a]);
    take_voxel(sums, counts, g, n, below, v);
    take_voxel(sums, counts, g, n, above, v + d);
}

// The final number of the face that cell p shows, at place c of the block; 0 if it shows none, or does not count here.
fn own_face(g: BlockInput, s: Triple, p: usize, c: Triple) -> u32
    requires { p < length g.map.now }
    ensures { OwnFace s g.entry.map.now g.entry.numbers.now g.entry.from p c result }
{
    if !starts_by(s, c) {
        return 0;
    }
    final_number(g.numbers, g.from, g.map[p])
}

// Takes in what is taken at face cell p, at place c of the block.
fn take_cell(
    sums: &mut [f64],
    counts: &mut [u64],
    g: BlockInput,
    e: Triple,
    s: Triple,
    p: usize,
    a: usize,
    v: usize,
    d: usize,
    c: Triple,
)
    requires { Beside e g.map.now g.values.now g.kinds.now p a v d × (place (sides e) p ≡ c) }
    ensures sum { sums.new ≡ sums_with sums.old (cell_taken e s (input_of g.entry) p) }
    ensures count { counts.new ≡ counts_with counts.old (cell_taken e s (input_of g.entry) p) }
{
    let n = own_face(g, s, p, c);
    if n != 0 {
        take_face(sums, counts, g, e, p, a, n, v, d);
    }
}

// A line of the cells: what its face cells are told by.
#[derive(Clone, Copy)]
pub struct FaceLine {
    pub line: Line,
    pub y: usize,
    pub z: usize,
    pub stride: usize,
    pub apart: usize,
    pub first: usize,
}

// Line l, which lies at y and z.
fn face_line(e: Triple, l: usize, y: usize, z: usize) -> FaceLine
    requires { Sized 64 e × (l < line_count e) × (y ≡ l % (2 * e.y - 1)) × (z ≡ l / (2 * e.y - 1)) }
    ensures { Lies e l result }
{
    let line = line_with(e, 1, l, y % 2 + z % 2);
    let w = line.width;
    let h = 2 * e.y - 1;
    FaceLine {
        line,
        y,
        z,
        stride: first_stride(line.start, y % 2, w, w * h),
        apart: first_stride(line.start, y % 2, e.x, e.x * e.y),
        first: y / 2 * e.x + z / 2 * (e.x * e.y),
    }
}

// Lists the cells of a line that show a number in the map, and answers how many there are. Most cells show none, so each is written down, and
// kept if it shows one: no step hangs on what the map holds.
fn list_shown(list: &mut [usize], map: &[u32], line: Line) -> usize
    requires { (line.base + line.width ≤ length map.now) × (line.width < 128) × (line.count ≡ (line.width - line.start + 1) / 2) × (64 ≤ length list.old) }
    ensures { Listed map.now line.base line.width line.start list.new result }
{
    let mut many = 0;
    for k in 0..line.count {
        let x = line.start + 2 * k;
        list[many] = x;
        many += usize::from(map[line.base + x] != 0);
    }
    many
}

// Takes in the face cells of line l, which lies at y and z. The list is used on the way.
fn take_line(
    sums: &mut [f64],
    counts: &mut [u64],
    list: &mut [usize],
    g: BlockInput,
    e: Triple,
    s: Triple,
    l: usize,
    y: usize,
    z: usize,
)
    requires { Whole e g.map.now g.values.now g.kinds.now × (l < line_count e) × (y ≡ l % (2 * e.y - 1)) × (z ≡ l / (2 * e.y - 1)) × (64 ≤ length list.old) }
    ensures sum { sums.new ≡ sums_with sums.old (gathered (cell_taken e s (input_of g.entry)) (on_line e 2 l)) }
    ensures count { counts.new ≡ counts_with counts.old (gathered (cell_taken e s (input_of g.entry)) (on_line e 2 l)) }
{
    let face = face_line(e, l, y, z);
    let many = list_shown(list, g.map, face.line);
    for x in &list[..many] {
        let c = Triple {
            x: *x,
            y: face.y,
            z: face.z,
        };
        let v = c.x / 2 + face.first;
        take_cell(
            sums,
            counts,
            g,
            e,
            s,
            face.line.base + c.x,
            face.stride,
            v,
            face.apart,
            c,
        );
    }
}

// The summing pass: adds the readings of the block's own face cells to the totals, in cell order. Not an entry.
pub fn sum_block(
    sums: &mut [f64],
    counts: &mut [u64],
    values: &[f64],
    kinds: &[u8],
    map: &[u32],
    numbers: &[u32],
    e: Triple,
    s: Triple,
    from: u32,
)
    requires { Whole e map.now values.now kinds.now }
    ensures sum { sums.new ≡ sums_with sums.old (block_taken e s (brought map.now numbers.now from values.now kinds.now)) }
    ensures count { counts.new ≡ counts_with counts.old (block_taken e s (brought map.now numbers.now from values.now kinds.now)) }
{
    let g = BlockInput {
        map,
        numbers,
        from,
        values,
        kinds,
    };
    // the cells of a line that show a face: at most 64
    let mut list = [0usize; 64];
    let h = 2 * e.y - 1;
    for z in 0..2 * e.z - 1 {
        for y in 0..h {
            take_line(sums, counts, &mut list, g, e, s, z * h + y, y, z);
        }
    }
}
