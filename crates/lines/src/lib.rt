// The cells of one order, line by line, and their rows by strides. A line's strides come from the table of neighbour steps; a cell then needs no
// division and no table.
#![tactic(auto)]

ghost use Rattle.std.specs.Prelude.{◌≡◌, [], ◌∷◌, ◌+◌, ◌-◌, ◌<◌, ◌≤◌, length, get_or};
ghost use Rattle.cells.specs.Extents.{Sized};
ghost use Rattle.cells.specs.Grid.{cells};
ghost use Rattle.cells.specs.Row.{row};
ghost use Rattle.lines.specs.Lines.{odds, line_count, line_y, line_z, first_x, first_stride, last_stride, Strided, LineAt, StridedAt};

use cells::Triple;
use rows::{row_of, stride};

// Where the cells of a line with n odd axes begin, if q axes of the line are odd and it has w cells.
#[tactic(auto, unfolding(crate::specs::Lines::first_x))]
fn first_x(n: usize, q: usize, w: usize) -> usize
    ensures { result ≡ first_x n q w }
{
    match n.checked_sub(q) {
        Some(0) => 0,
        Some(1) => 1,
        _ => w,
    }
}

// The first stride of the odd axes of a cell, by the parities of its x and y, from the table of neighbour steps.
#[tactic(auto, unfolding(crate::specs::Lines::first_stride))]
pub fn first_stride(x: usize, y: usize, w: usize, wh: usize) -> usize
    ensures { result ≡ first_stride x y w wh }
{
    stride(x % 2 + 2 * (y % 2) + 4, 0, w, wh)
}

// The last stride of two or more odd axes, by the parity of z.
#[tactic(auto, unfolding(crate::specs::Lines::last_stride))]
fn last_stride(z: usize, w: usize, wh: usize) -> usize
    ensures { result ≡ last_stride z w wh }
{
    stride(3 + 4 * (z % 2), 2 + 2 * (z % 2), w, wh)
}

// A line, for a pass over its cells with so many odd axes: they lie two apart.
#[derive(Clone, Copy)]
pub struct Line {
    // How many cells the line has.
    pub width: usize,
    // The position of its first cell.
    pub base: usize,
    // The x of the first cell of the pass: the width, where there is none.
    pub start: usize,
    // How many cells the pass has on this line.
    pub count: usize,
}

// The strides of the odd axes of a cell: a pass takes them from its line.
#[derive(Clone, Copy)]
pub struct Strides {
    // The first stride.
    pub first: usize,
    // The middle one of three: the width of a line.
    pub middle: usize,
    // The last one of two or three.
    pub last: usize,
}

// A line with the strides of the odd axes of those cells.
#[derive(Clone, Copy)]
pub struct StridedLine {
    pub line: Line,
    pub strides: Strides,
}

// How many lines the grid has. Not an entry.
#[tactic(auto, using(crate::proofs::LineLaws::lines_high), unfolding(crate::specs::Lines::line_count, cells::specs::Grid::sides))]
pub fn line_count(e: Triple) -> usize
    requires { Sized 64 e }
    ensures { result ≡ line_count e }
{
    (2 * e.y - 1) * (2 * e.z - 1)
}

// Line l, of which q axes are odd, for its cells with n odd axes. Not an entry.
pub fn line_with(e: Triple, n: usize, l: usize, q: usize) -> Line
    requires { Sized 64 e × (l < line_count e) × (q ≡ line_y e l + line_z e l) }
    ensures { LineAt e n l result }
{
    let width = 2 * e.x - 1;
    let start = first_x(n, q, width);
    Line {
        width,
        base: l * width,
        start,
        count: (width - start + 1) / 2,
    }
}

// Line l for its cells with n odd axes. Not an entry.
#[tactic(auto, unfolding(cells::specs::Grid::sides, crate::specs::Lines::line_y, crate::specs::Lines::line_z))]
pub fn line_at(e: Triple, n: usize, l: usize) -> Line
    requires { Sized 64 e × (l < line_count e) }
    ensures { LineAt e n l result }
{
    let h = 2 * e.y - 1;
    line_with(e, n, l, l % h % 2 + l / h % 2)
}

// The same, with their strides. Not an entry.
pub fn strided_line(e: Triple, n: usize, l: usize) -> StridedLine
    requires { Sized 64 e × (l < line_count e) }
    ensures { StridedAt e n l result }
{
    let h = 2 * e.y - 1;
    let y = l % h % 2;
    let z = l / h % 2;
    let line = line_with(e, n, l, y + z);
    let w = line.width;
    let wh = w * h;
    StridedLine {
        line,
        strides: Strides {
            first: first_stride(line.start, y, w, wh),
            middle: w,
            last: last_stride(z, w, wh),
        },
    }
}

// The numbers one stride down and up.
fn below(map: &[u32], p: usize, s: usize) -> u32
    requires { (s ≤ p) × (p < length map.now) }
    ensures { result ≡ get_or map.now (p - s) 0 }
{
    map[p - s]
}

fn above(map: &[u32], p: usize, s: usize) -> u32
    requires { p + s < length map.now }
    ensures { result ≡ get_or map.now (p + s) 0 }
{
    map[p + s]
}

// The row of a cell with one odd axis, of stride a. Not an entry: the passes show what it requires.
pub fn face_row(map: &[u32], e: Triple, p: usize, a: usize) -> [u32; 6]
    requires { (length map.now ≡ cells e) × (p < cells e) × (odds e p ≡ a ∷ []) }
    ensures { result ≡ row e map.now p }
{
    row_of([below(map, p, a), above(map, p, a)])
}

// The row of a cell with two odd axes, of strides a and b. Not an entry.
pub fn curve_row(map: &[u32], e: Triple, p: usize, a: usize, b: usize) -> [u32; 6]
    requires { (length map.now ≡ cells e) × (p < cells e) × (odds e p ≡ a ∷ b ∷ []) }
    ensures { result ≡ row e map.now p }
{
    row_of([
        below(map, p, a),
        above(map, p, a),
        below(map, p, b),
        above(map, p, b),
    ])
}

// The row of a cell with three odd axes, of strides a, b and c. Not an entry.
pub fn point_row(map: &[u32], e: Triple, p: usize, a: usize, b: usize, c: usize) -> [u32; 6]
    requires { (length map.now ≡ cells e) × (p < cells e) × (odds e p ≡ a ∷ b ∷ c ∷ []) }
    ensures { result ≡ row e map.now p }
{
    row_of([
        below(map, p, a),
        above(map, p, a),
        below(map, p, b),
        above(map, p, b),
        below(map, p, c),
        above(map, p, c),
    ])
}

// The row of a cell with n odd axes, by its strides. Not an entry.
pub fn row_near(map: &[u32], e: Triple, n: usize, p: usize, s: Strides) -> [u32; 6]
    requires { (length map.now ≡ cells e) × (p < cells e) × Strided e p n s.first s.middle s.last }
    ensures { result ≡ row e map.now p }
{
    match n {
        1 => face_row(map, e, p, s.first),
        2 => curve_row(map, e, p, s.first, s.last),
        _ => point_row(map, e, p, s.first, s.middle, s.last),
    }
}
