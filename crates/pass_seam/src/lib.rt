// The layer that the two blocks of a seam share: compared, and the components seen from both blocks joined.
#![tactic(auto)]

ghost use Rattle.std.specs.Prelude.{◌≡◌, length};
ghost use Rattle.closure.specs.Joined.{joins};
ghost use Rattle.cells.specs.Extents.{Sized};
ghost use Rattle.cells.specs.Grid.{sides};
ghost use Rattle.union_find.specs.Links.{root, Rooted};
ghost use Rattle.layers.specs.Layers.{axis_of, columns_of, rows_of};
ghost use Rattle.pass_seam.specs.Walks.{number_at, cells_differ, differ_at, layers_differ_to, has_place, join_at, row_edges, layer_edges, LayerOf};

use cells::Triple;
use lists::read_or;
use union_find::unite;

// Where the cells of a layer stand in a map: column u of row v at start + u·column + v·row.
#[derive(Clone, Copy)]
pub struct Layer {
    pub start: u32,
    pub column: u32,
    pub row: u32,
}

// The layer as one block of a seam sees it: in that block's map.
#[derive(Clone, Copy)]
pub struct Side<'a> {
    pub map: &'a [u32],
    pub layer: Layer,
}

// What to join: cells of so many odd coordinates. The lower block's numbers stand from `from` on in a table of `size` entries, the upper block's from `to` on.
#[derive(Clone, Copy)]
pub struct Joint {
    pub odd: u16,
    pub from: u32,
    pub to: u32,
    pub size: u32,
}

// The number of a cell of a layer, 0 outside the map.
#[tactic(auto, using(crate::proofs::WalkLaws::product_fits), unfolding(crate::specs::Walks::number_at, crate::specs::Walks::cell_of))]
fn number_at(s: Side, u: u16, v: u16) -> u32
    ensures { result ≡ number_at s.entry.map.now s.entry.layer u v }
{
    let l = s.layer;
    let i = l.start as usize + u as usize * l.column as usize + v as usize * l.row as usize;
    read_or(s.map, i, 0)
}

// Whether the codes of a voxel differ, or just one of the numbers of another cell is 0.
#[tactic(auto, unfolding(crate::specs::Walks::cells_differ))]
fn differ(voxel: bool, a: u32, b: u32) -> bool
    ensures { result ≡ cells_differ voxel a b }
{
    if voxel { a != b } else { (a == 0) != (b == 0) }
}

#[tactic(auto, unfolding(crate::specs::Walks::differ_at))]
fn differ_at(low: Side, high: Side, u: u16, v: u16) -> bool
    ensures { result ≡ differ_at low.entry.map.now low.entry.layer high.entry.map.now high.entry.layer u v }
{
    let a = number_at(low, u, v);
    let b = number_at(high, u, v);
    differ(u % 2 + v % 2 == 0, a, b)
}

// Whether the layers differ. "A seam's layer is compared row by row, and the comparison stops at the first cell that differs."
#[tactic(auto, using(crate::proofs::WalkLaws::row_none, crate::proofs::WalkLaws::row_more, crate::proofs::WalkLaws::rows_none, crate::proofs::WalkLaws::rows_more, crate::proofs::WalkLaws::rows_all, crate::proofs::WalkLaws::spoilt))]
pub fn layers_differ(low: Side, high: Side, columns: u16, rows: u16) -> bool
    ensures { result ≡ layers_differ_to low.entry.map.now low.entry.layer high.entry.map.now high.entry.layer columns rows }
{
    for v in 0..rows {
        for u in 0..columns {
            if differ_at(low, high, u, v) {
                return true;
            }
        }
    }
    false
}

// Whether number a of a block whose components stand from `from` on has a place in a table of `size` entries: 0 has none.
#[tactic(auto, unfolding(crate::specs::Walks::has_place))]
fn has_place(from: u32, a: u32, size: u32) -> bool
    ensures { result ≡ has_place from a size }
{
    a != 0 && from as u64 + (a as u64 - 1) < size as u64
}

// Joins the numbers of one cell seen from both blocks, where it has so many odd coordinates.
#[tactic(auto, using(crate::proofs::WalkLaws::has_low, crate::proofs::WalkLaws::has_below))]
fn join_at(links: &mut [u32], low: Side, high: Side, j: Joint, u: u16, v: u16)
    requires { length links.old ≡ j.size }
    ensures { Rooted links.old links.new
        (joins (root links.old) (join_at low.entry.map.now low.entry.layer high.entry.map.now high.entry.layer j.odd j.from j.to j.size v u)) }
{
    if u % 2 + v % 2 != j.odd {
        return;
    }
    let a = number_at(low, u, v);
    let b = number_at(high, u, v);
    if has_place(j.from, a, j.size) && has_place(j.to, b, j.size) {
        unite(links, j.from + (a - 1), j.to + (b - 1));
    }
}

#[tactic(auto, using(crate::proofs::WalkLaws::walk_all), unfolding(crate::specs::Walks::row_edges))]
fn join_row(links: &mut [u32], low: Side, high: Side, j: Joint, columns: u16, v: u16)
    requires { length links.old ≡ j.size }
    ensures { Rooted links.old links.new
        (joins (root links.old) (row_edges low.entry.map.now low.entry.layer high.entry.map.now high.entry.layer j.odd j.from j.to j.size columns v)) }
{
    for u in 0..columns {
        join_at(links, low, high, j, u, v);
    }
}

// "Numbers of one active face or curve cell seen from both blocks become the same component."
// A face cell of the layer has one odd coordinate among column and row, a curve cell two. Not an entry.
#[tactic(auto, using(crate::proofs::WalkLaws::walk_all), unfolding(crate::specs::Walks::layer_edges))]
pub fn join_layers(links: &mut [u32], low: Side, high: Side, j: Joint, columns: u16, rows: u16)
    requires { length links.old ≡ j.size }
    ensures { Rooted links.old links.new
        (joins (root links.old) (layer_edges low.entry.map.now low.entry.layer high.entry.map.now high.entry.layer j.odd j.from j.to j.size columns rows)) }
{
    for v in 0..rows {
        join_row(links, low, high, j, columns, v);
    }
}

// The last layer across an axis of a block of so many voxels, or the first. Not an entry.
// Kept: the axis by number, here and below, since these answer for every number, and the type Axis asks more of the caller.
pub fn layer_of(e: Triple, axis: u32, last: bool) -> Layer
    requires { Sized 64 e }
    ensures { LayerOf e (axis_of axis) last result }
{
    let w = 2 * e.x as u32 - 1;
    let h = 2 * e.y as u32 - 1;
    let d = 2 * e.z as u32 - 1;
    let area = w * h;
    let (column, row, end) = match axis {
        1 => (w, area, w - 1),
        2 => (1, area, (h - 1) * w),
        _ => (1, w, (d - 1) * area),
    };
    let start = if last { end } else { 0 };
    Layer { start, column, row }
}

// The columns of that layer. Not an entry.
#[tactic(auto, unfolding(layers::specs::Layers::axis_of, cells::specs::Grid::sides))]
pub fn columns_of(e: Triple, axis: u32) -> u16
    requires { Sized 64 e }
    ensures { result ≡ columns_of (sides e) (axis_of axis) }
{
    let n = if axis == 1 { e.y } else { e.x };
    (2 * n - 1) as u16
}

// The rows of that layer. Not an entry.
#[tactic(auto, unfolding(layers::specs::Layers::axis_of, cells::specs::Grid::sides))]
pub fn rows_of(e: Triple, axis: u32) -> u16
    requires { Sized 64 e }
    ensures { result ≡ rows_of (sides e) (axis_of axis) }
{
    let n = if axis == 1 || axis == 2 { e.z } else { e.y };
    (2 * n - 1) as u16
}
