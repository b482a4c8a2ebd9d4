// The joining pass of the labeller: cells of one component are joined at the cells where they meet.
#![tactic(auto)]

ghost use Rattle.std.specs.Prelude.{◌≡◌, not, [], ◌∷◌, suc, ◌*◌, ◌-◌, ◌<◌, ◌≤◌, length, get_or, drop, All};
ghost use Rattle.lists.specs.Lists.{consecutive, keep};
ghost use Rattle.closure.specs.Joined.{joins};
ghost use Rattle.union_find.specs.Links.{root, Rooted};
ghost use Rattle.cells.specs.Grid.{cells, upper_neighbours};
ghost use Rattle.cells.specs.Extents.{Sized};
ghost use Rattle.cells.specs.Row.{occupied, row};
ghost use Rattle.labels.specs.Number.{pairs, alike, edges_at, order_below, edges};
ghost use Rattle.lines.specs.Lines.{odds, line_count, Strided};
ghost use Rattle.pass_join.specs.JoinTrays.{Trays, alike_to, alike_pairs};
ghost use Rattle.pass_join.specs.Around.{positions, rows_of};

use cells::Triple;
use lines::{Strides, curve_row, face_row, line_count, strided_line};
use rows::same_row;
use union_find::unite;

// A cell around another one: its position and its row.
#[derive(Clone, Copy)]
struct Neighbour {
    at: u32,
    row: [u32; 6],
}

// The row has no entry.
#[tactic(auto, unfolding(cells::specs::Row::occupied))]
fn is_blank(row: [u32; 6]) -> bool
    ensures { result ≡ not (occupied row) }
{
    row[0] == 0
}

// Joins the i-th cell with the later ones of equal row. A row without an entry joins nothing.
fn join_from(cells: &[Neighbour], i: usize, links: &mut [u32])
    requires { (i < length cells.now) × All (λ n. n.at < length links.old) cells.now }
    ensures { Rooted links.old links.new
        (joins (root links.old) (alike_to (get_or (positions cells.now) i 0) (get_or (rows_of cells.now) i []) (drop (suc i) (positions cells.now)) (drop (suc i) (rows_of cells.now)))) }
{
    let cell = cells[i];
    if is_blank(cell.row) {
        return;
    }
    for k in i + 1..cells.len() {
        if same_row(cell.row, cells[k].row) {
            unite(links, cell.at, cells[k].at);
        }
    }
}

// Joins those of some cells that have equal rows.
fn join_alike(cells: &[Neighbour], links: &mut [u32])
    requires { All (λ n. n.at < length links.old) cells.now }
    ensures { Rooted links.old links.new (joins (root links.old) (alike_pairs (positions cells.now) (rows_of cells.now))) }
{
    for i in 0..cells.len() {
        join_from(cells, i, links);
    }
}

// The face cell at p, whose odd axis has the stride a.
fn face_at(map: &[u32], e: Triple, p: usize, a: usize) -> Neighbour
    requires { (Sized 64 e) × (length map.now ≡ cells e) × (p < cells e) × (odds e p ≡ a ∷ []) }
    ensures at { result.at ≡ p }
    ensures row { result.row ≡ row e map.now p }
{
    Neighbour {
        at: p as u32,
        row: face_row(map, e, p, a),
    }
}

// The curve cell at p, whose odd axes have the strides a and b.
fn curve_at(map: &[u32], e: Triple, p: usize, a: usize, b: usize) -> Neighbour
    requires { (Sized 64 e) × (length map.now ≡ cells e) × (p < cells e) × (odds e p ≡ a ∷ b ∷ []) }
    ensures at { result.at ≡ p }
    ensures row { result.row ≡ row e map.now p }
{
    Neighbour {
        at: p as u32,
        row: curve_row(map, e, p, a, b),
    }
}

// Joins the face cells around curve cell t, whose odd axes have the strides a and b.
fn join_faces(map: &[u32], e: Triple, t: usize, a: usize, b: usize, links: &mut [u32])
    requires { Trays e map.now links.old × (t < cells e) × (odds e t ≡ a ∷ b ∷ []) }
    ensures { Rooted links.old links.new
        (joins (root links.old) (keep (alike e map.now) (pairs (upper_neighbours e t)))) }
{
    let p = face_at(map, e, t - a, b);
    let q = face_at(map, e, t + a, b);
    let u = face_at(map, e, t - b, a);
    let v = face_at(map, e, t + b, a);
    // No active cell, the common case.
    if is_blank(p.row) && is_blank(q.row) && is_blank(u.row) && is_blank(v.row) {
        return;
    }
    join_alike(&[p, q, u, v], links);
}

// Joins the curve cells around point cell t, whose axes have the strides a, b and c.
fn join_curves(map: &[u32], e: Triple, t: usize, a: usize, b: usize, c: usize, links: &mut [u32])
    requires { Trays e map.now links.old × (t < cells e) × (odds e t ≡ a ∷ b ∷ c ∷ []) }
    ensures { Rooted links.old links.new
        (joins (root links.old) (keep (alike e map.now) (pairs (upper_neighbours e t)))) }
{
    let p = curve_at(map, e, t - a, b, c);
    let q = curve_at(map, e, t + a, b, c);
    let u = curve_at(map, e, t - b, a, c);
    let v = curve_at(map, e, t + b, a, c);
    let x = curve_at(map, e, t - c, a, b);
    let y = curve_at(map, e, t + c, a, b);
    // No active cell, the common case.
    if is_blank(p.row)
        && is_blank(q.row)
        && is_blank(u.row)
        && is_blank(v.row)
        && is_blank(x.row)
        && is_blank(y.row)
    {
        return;
    }
    join_alike(&[p, q, u, v, x, y], links);
}

// Joins the upper neighbours of cell t, which has n odd axes, two or three, by its strides.
fn join_at(map: &[u32], e: Triple, n: usize, t: usize, s: Strides, links: &mut [u32])
    requires { Trays e map.now links.old × (t < cells e) × (1 < n) × Strided e t n s.first s.middle s.last }
    ensures { Rooted links.old links.new
        (joins (root links.old) (keep (alike e map.now) (pairs (upper_neighbours e t)))) }
{
    if n == 2 {
        join_faces(map, e, t, s.first, s.last, links);
    } else {
        join_curves(map, e, t, s.first, s.middle, s.last, links);
    }
}

// Joins the cells of order j at the cells of line l that have the order below.
fn join_line(map: &[u32], e: Triple, j: usize, l: usize, links: &mut [u32])
    requires { Trays e map.now links.old × (j ≤ 2) × (l < line_count e) }
    ensures { Rooted links.old links.new
        (joins (root links.old) (edges_at e map.now (keep (order_below e j) (consecutive (l * (2 * e.x - 1)) (2 * e.x - 1))))) }
{
    let n = 4 - j;
    let s = strided_line(e, n, l);
    let line = s.line;
    for k in 0..line.count {
        join_at(
            map,
            e,
            n,
            line.base + (line.start + 2 * k),
            s.strides,
            links,
        );
    }
}

// Joins the cells of order j that belong to one component. Not an entry.
pub fn join_cells(map: &[u32], e: Triple, j: usize, links: &mut [u32])
    requires { Trays e map.now links.old × (j ≤ 2) }
    ensures { Rooted links.old links.new (joins (root links.old) (edges e map.now j)) }
{
    for l in 0..line_count(e) {
        join_line(map, e, j, l, links);
    }
}
