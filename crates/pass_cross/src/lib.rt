// The crossing pass of the joiner: components of one order are joined at the cells where they meet, if their rows are equal.
// A row is read through the links of the order above, as joined so far.
#![tactic(auto)]

ghost use Rattle.std.specs.Prelude.{◌≡◌, [], ◌∷◌, ℕ, suc, ◌+◌, ◌-◌, ◌<◌, ◌≤◌, length, get_or, drop};
ghost use Rattle.closure.specs.Joined.{joins};
ghost use Rattle.union_find.specs.Links.{root, Rooted};
ghost use Rattle.cells.specs.Grid.{order, upper_neighbours};
ghost use Rattle.cells.specs.Row.{pad_to, numbers_at};
ghost use Rattle.lines.specs.Lines.{around, line_count};
ghost use Rattle.pass_cross.specs.CrossEdges.{read_through, numbers_through, edge_if, cross_at, cross_edges, Room, Trays, Crossed};
ghost use Rattle.pass_cross.specs.Inner.{Read, strides_of, active_row, rows_along, cell_rows, pad_rows, count_active, edges_to, edges_among, line_edges, Readable, Near, Beside, Meeting, CellTrays};

use cells::Triple;
use lines::{Strides, line_count, strided_line};
use rows::{row_of, same_row};
use union_find::{find_halving, unite};

// A number read through links: the place of its root + 1, and 0 for 0.
fn read_through(above: &mut [u32], from: u32, n: u32) -> u32
    requires { (from + n ≤ length above.old) × (length above.old < 4294967296) }
    ensures { Read above.old above.new result (read_through (root above.old) from n) }
{
    if n == 0 {
        return 0;
    }
    find_halving(above, from + (n - 1)) + 1
}

// The numbers one stride down and up from p.
fn numbers_along(map: &[u32], p: usize, s: usize) -> [u32; 2]
    requires { (s ≤ p) × (p + s < length map.now) }
    ensures { result ≡ get_or map.now (p - s) 0 ∷ get_or map.now (p + s) 0 ∷ [] }
{
    [map[p - s], map[p + s]]
}

// The same, read through links.
fn read_along(map: &[u32], p: usize, s: usize, above: &mut [u32], from: u32) -> [u32; 2]
    requires { Readable map.now p s from (length above.old) × (length above.old < 4294967296) }
    ensures { Read above.old above.new result (numbers_through map.now (root above.old) from (around p (s ∷ []))) }
{
    let [down, up] = numbers_along(map, p, s);
    let u = read_through(above, from, down);
    let v = read_through(above, from, up);
    [u, v]
}

// The row of cell p, a face cell of stride a or a curve cell of strides a and b, read through links: zeros where p is not active.
fn row_near(
    map: &[u32],
    p: usize,
    a: usize,
    b: Option<usize>,
    above: &mut [u32],
    from: u32,
) -> [u32; 6]
    requires { Near map.now p a b from (length above.old) }
    ensures { Read above.old above.new result (active_row map.now (root above.old) from p (around p (strides_of a b))) }
{
    if map[p] == 0 {
        return [0; 6];
    }
    let [u, v] = read_along(map, p, a, above, from);
    match b {
        Some(s) => {
            let [w, x] = read_along(map, p, s, above, from);
            row_of([u, v, w, x])
        }
        None => row_of([u, v]),
    }
}

// The rows of the cells one stride s down and up from t, whose own strides are a and b.
fn rows_along(
    map: &[u32],
    t: usize,
    s: usize,
    a: usize,
    b: Option<usize>,
    above: &mut [u32],
    from: u32,
) -> [[u32; 6]; 2]
    requires { Beside map.now t s a b from (length above.old) }
    ensures { Read above.old above.new result (rows_along map.now (root above.old) from t s (strides_of a b)) }
{
    let u = row_near(map, t - s, a, b, above, from);
    let v = row_near(map, t + s, a, b, above, from);
    [u, v]
}

// The rows of the upper neighbours of cell t, in six places.
fn rows_around(
    map: &[u32],
    e: Triple,
    n: usize,
    t: usize,
    s: Strides,
    above: &mut [u32],
    from: u32,
) -> [[u32; 6]; 6]
    requires { Meeting e map.now n t s.first s.middle s.last × Room e map.now (suc (suc (order e t))) from (length above.old) }
    ensures { Read above.old above.new result (pad_rows 6 (cell_rows e map.now (root above.old) from (upper_neighbours e t))) }
{
    if n == 2 {
        let [u, v] = rows_along(map, t, s.first, s.last, None, above, from);
        let [w, x] = rows_along(map, t, s.last, s.first, None, above, from);
        return [u, v, w, x, [0; 6], [0; 6]];
    }
    let [u, v] = rows_along(map, t, s.first, s.middle, Some(s.last), above, from);
    let [w, x] = rows_along(map, t, s.middle, s.first, Some(s.last), above, from);
    let [y, z] = rows_along(map, t, s.last, s.first, Some(s.middle), above, from);
    [u, v, w, x, y, z]
}

// The numbers of the upper neighbours of cell t, in six places.
fn numbers_around(map: &[u32], e: Triple, n: usize, t: usize, s: Strides) -> [u32; 6]
    requires { Meeting e map.now n t s.first s.middle s.last }
    ensures { result ≡ pad_to 6 (numbers_at map.now (upper_neighbours e t)) }
{
    let [u, v] = numbers_along(map, t, s.first);
    let [y, z] = numbers_along(map, t, s.last);
    if n == 2 {
        return [u, v, y, z, 0, 0];
    }
    let [w, x] = numbers_along(map, t, s.middle);
    [u, v, w, x, y, z]
}

// How many of six numbers are not 0.
// Kept: a loop, since `filter` and `count` over the six numbers take seven times as long.
fn count_active(numbers: [u32; 6]) -> u32
    ensures { result ≡ count_active numbers }
{
    let mut n = 0;
    for x in numbers {
        if x != 0 {
            n += 1;
        }
    }
    n
}

// Joins the components of numbers x and y, where neither is 0 and their rows are equal.
fn join_two(links: &mut [u32], from: u32, x: u32, y: u32, r: [u32; 6], s: [u32; 6])
    requires { (from + x ≤ length links.old) × (from + y ≤ length links.old) × (length links.old < 4294967296) }
    ensures { Rooted links.old links.new (joins (root links.old) (edge_if from x y r s)) }
{
    if x != 0 && y != 0 && same_row(r, s) {
        unite(links, from + (x - 1), from + (y - 1));
    }
}

// Joins the i-th number with the later ones of equal row.
fn join_from(links: &mut [u32], from: u32, numbers: [u32; 6], rows: [[u32; 6]; 6], i: usize)
    requires { (i < 6) × ((k : ℕ) → k < 6 → from + get_or numbers k 0 ≤ length links.old) × (length links.old < 4294967296) }
    ensures { Rooted links.old links.new
        (joins (root links.old) (edges_to from (get_or numbers i 0) (get_or rows i []) (drop (suc i) numbers) (drop (suc i) rows))) }
{
    let x = numbers[i];
    let r = rows[i];
    for k in i + 1..6 {
        join_two(links, from, x, numbers[k], r, rows[k]);
    }
}

// Joins those of six numbers that have equal rows. 0 joins nothing.
fn join_among(links: &mut [u32], from: u32, numbers: [u32; 6], rows: [[u32; 6]; 6])
    requires { ((k : ℕ) → k < 6 → from + get_or numbers k 0 ≤ length links.old) × (length links.old < 4294967296) }
    ensures { Rooted links.old links.new (joins (root links.old) (edges_among from numbers rows)) }
{
    for i in 0..6 {
        join_from(links, from, numbers, rows, i);
    }
}

// Joins the upper neighbours of cell t, which has n odd axes, two or three, by its strides.
fn cross_at(
    map: &[u32],
    e: Triple,
    n: usize,
    t: usize,
    s: Strides,
    above: &mut [u32],
    above_from: u32,
    links: &mut [u32],
    from: u32,
)
    requires { CellTrays e map.now n t s.first s.middle s.last (length above.old) above_from (length links.old) from }
    ensures { Crossed above.old above.new links.old links.new
        (cross_at e map.now (root above.old) above_from from t) }
{
    let numbers = numbers_around(map, e, n, t, s);
    // Fewer than two active cells, the common case.
    if count_active(numbers) < 2 {
        return;
    }
    let rows = rows_around(map, e, n, t, s, above, above_from);
    join_among(links, from, numbers, rows);
}

// Joins the components of order j at the cells of line l that have the order below.
fn cross_line(
    map: &[u32],
    e: Triple,
    j: usize,
    l: usize,
    above: &mut [u32],
    above_from: u32,
    links: &mut [u32],
    from: u32,
)
    requires { Trays e map.now j above.old above_from links.old from × (l < line_count e) }
    ensures { Crossed above.old above.new links.old links.new
        (line_edges (cross_at e map.now (root above.old) above_from from) e (j - 1) l) }
{
    let n = 4 - j;
    let s = strided_line(e, n, l);
    let line = s.line;
    for k in 0..line.count {
        let t = line.base + (line.start + 2 * k);
        cross_at(map, e, n, t, s.strides, above, above_from, links, from);
    }
}

// Joins the components of order j that meet at cells of the order below and have equal rows, read through the components of the order
// above as joined so far. Not an entry.
pub fn cross_cells(
    map: &[u32],
    e: Triple,
    j: usize,
    above: &mut [u32],
    above_from: u32,
    links: &mut [u32],
    from: u32,
)
    requires { Trays e map.now j above.old above_from links.old from }
    ensures { Crossed above.old above.new links.old links.new
        (cross_edges e map.now j (root above.old) above_from from) }
{
    for l in 0..line_count(e) {
        cross_line(map, e, j, l, above, above_from, links, from);
    }
}
