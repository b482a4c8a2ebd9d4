// The passes over a map for its listing: the largest number of each kind, and the first cells.
#![tactic(auto)]

ghost use Rattle.std.specs.Prelude.{◌≡◌, ◌+◌, ◌<◌, eqb};
ghost use Rattle.lists.specs.Lists.{zeros};
ghost use Rattle.cells.specs.Extents.{Sized};
ghost use Rattle.cells.specs.Grid.{cells, order};
ghost use Rattle.labels.specs.Components.{largest};
ghost use Rattle.pass_first.specs.Marks.{cell_order, Sought, Marks};

use cells::Triple;

// A kind of component, with the order of its cells.
#[derive(Clone, Copy)]
pub enum Kind {
    Point = 0,
    Curve = 1,
    Face = 2,
}

impl Kind {
    // The order of its cells.
    pub fn order(self) -> usize
        ensures { result ≡ cell_order self }
    {
        self as usize
    }
}

// The order of cell p.
#[tactic(auto, using(cells::proofs::ExtentLaws::layer_low, cells::proofs::ExtentLaws::layer_high), unfolding(cells::specs::Grid::order, cells::specs::Grid::parity, cells::specs::Box::place, cells::specs::Grid::sides))]
fn order_of(e: Triple, p: usize) -> usize
    requires { Sized 8 e }
    ensures { result ≡ order e p }
{
    let w = 2 * e.x - 1;
    let h = 2 * e.y - 1;
    3 - (p % w % 2 + p / w % h % 2 + p / (w * h) % 2)
}

// Whether cell p is of a kind.
fn is_of(e: Triple, kind: Kind, p: usize) -> bool
    requires { Sized 8 e }
    ensures { result ≡ eqb (order e p) (cell_order kind) }
{
    order_of(e, p) == kind.order()
}

// How many components of a kind there are. Not an entry.
#[tactic(auto, using(crate::proofs::MarkLaws::largest_start, crate::proofs::MarkLaws::largest_past, crate::proofs::MarkLaws::largest_here))]
pub fn count_of(map: &[u32], e: Triple, kind: Kind) -> u32
    requires { Sought e map.now (cell_order kind) }
    ensures { result ≡ largest e map.now (cell_order kind) }
{
    let mut most = 0;
    for p in (0..map.len()).rev() {
        if is_of(e, kind, p) {
            most = map[p].max(most);
        }
    }
    most
}

// Marks cell p, where it is of the kind, as the first of its number.
fn mark_cell(map: &[u32], e: Triple, kind: Kind, p: usize, marks: &mut [u32])
    requires { Sought e map.now (cell_order kind) × (p < cells e) × Marks e map.now (cell_order kind) (p + 1) marks.old }
    ensures { Marks e map.now (cell_order kind) p marks.new }
{
    if is_of(e, kind, p) {
        let n = map[p] as usize;
        if 0 < n && n <= marks.len() {
            marks[n - 1] = p as u32;
        }
    }
}

// Marks the first cells of the components of a kind, from the last cell down. Not an entry.
pub fn mark_order(map: &[u32], e: Triple, kind: Kind, marks: &mut [u32])
    requires { Sought e map.now (cell_order kind) × (marks.old ≡ zeros (cells e)) }
    ensures { Marks e map.now (cell_order kind) 0 marks.new }
{
    for p in (0..map.len()).rev() {
        mark_cell(map, e, kind, p, marks);
    }
}
