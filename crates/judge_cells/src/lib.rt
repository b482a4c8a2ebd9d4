// The tests of a list of cells that its two calls share: every cell is one of the grid, and the lists have one length.
#![tactic(auto)]

ghost use Rattle.std.specs.Prelude.{◌≡◌, ◌-◌, ◌*◌, ◌<◌, ltb};
ghost use Rattle.cells.specs.Grid.{sides};
ghost use Rattle.cell_calls.specs.Cells.{cell_lists, cell_count, cell_at, in_grid, all_in_grid};
ghost use Rattle.cell_calls.specs.Calls.{lengths_one};

use cells::Triple;
use lists::read_or;

// The most cells of a list.
pub const MOST_CELLS: usize = 4096;

// Cells by their places in the volume: their coordinates on each axis.
#[derive(Clone, Copy)]
pub struct CellLists<'a> {
    pub x: &'a [u32],
    pub y: &'a [u32],
    pub z: &'a [u32],
}

// Whether lists and tray of these lengths are those of one list of cells, not above the limit. Not an entry.
#[tactic(auto, unfolding(cell_calls::specs::Calls::lengths_one))]
pub fn lengths_one(x: usize, y: usize, z: usize, tray: usize) -> bool
    ensures { result ≡ lengths_one x y z tray }
{
    y == x && z == x && x <= MOST_CELLS && tray == x
}

// Whether a coordinate is one of an axis of n voxels: at most 2n − 2.
fn on_axis(n: usize, x: usize) -> bool
    ensures { result ≡ ltb x (2 * n - 1) }
{
    (x as u128) + 1 < 2 * (n as u128)
}

// Whether a cell is one of the grid of a volume of extents e.
#[tactic(auto, unfolding(cell_calls::specs::Cells::in_grid, cells::specs::Grid::sides))]
fn in_grid(e: Triple, c: Triple) -> bool
    ensures { result ≡ in_grid (sides e) c }
{
    on_axis(e.x, c.x) && on_axis(e.y, c.y) && on_axis(e.z, c.z)
}

impl CellLists<'_> {
    // How many cells the three lists have. Not an entry.
    #[tactic(auto, unfolding(cell_calls::specs::Cells::cell_count))]
    pub fn cell_count(&self) -> usize
        ensures { result ≡ cell_count (cell_lists self.now.x.now self.now.y.now self.now.z.now) }
    {
        self.x.len().min(self.y.len().min(self.z.len()))
    }

    // Cell i of the list. Not an entry.
    #[tactic(auto, unfolding(cell_calls::specs::Cells::cell_at))]
    pub fn cell_at(&self, i: usize) -> Triple
        ensures { result ≡ cell_at (cell_lists self.now.x.now self.now.y.now self.now.z.now) i }
    {
        Triple {
            x: read_or(self.x, i, 0) as usize,
            y: read_or(self.y, i, 0) as usize,
            z: read_or(self.z, i, 0) as usize,
        }
    }

    // .. one that the list has: it is read without a test of its place. Not an entry.
    #[tactic(auto, unfolding(cell_calls::specs::Cells::cell_at, cell_calls::specs::Cells::cell_count))]
    pub fn cell_within(&self, i: usize) -> Triple
        requires { i < cell_count (cell_lists self.now.x.now self.now.y.now self.now.z.now) }
        ensures { result ≡ cell_at (cell_lists self.now.x.now self.now.y.now self.now.z.now) i }
    {
        Triple {
            x: self.x[i] as usize,
            y: self.y[i] as usize,
            z: self.z[i] as usize,
        }
    }

    // Whether every cell of the list is one of the grid of a volume of extents e. Not an entry.
    #[tactic(auto, unfolding(cell_calls::specs::Cells::all_in_grid))]
    pub fn all_in_grid(&self, e: Triple) -> bool
        ensures { result ≡ all_in_grid e (cell_lists self.now.x.now self.now.y.now self.now.z.now) }
    {
        let n = self.cell_count();
        (0..n).all(|i| in_grid(e, self.cell_at(i)))
    }
}
