// Extents against their limit, for every public entry that is told some.
#![tactic(auto)]

ghost use Rattle.std.specs.Prelude.{◌≡◌, ◌+◌, ltb};
ghost use Rattle.cells.specs.Extents.{Sized, is_extent, off_size, off_place};
ghost use Rattle.cells.specs.Grid.{cells};

use cells::Triple;

#[tactic(auto, unfolding(cells::specs::Extents::is_extent))]
fn is_extent(limit: usize, n: usize) -> bool
    ensures { result ≡ is_extent limit n }
{
    1 <= n && n <= limit
}

// Whether an extent is 0 or above the limit.
#[tactic(auto, unfolding(cells::specs::Extents::off_size))]
pub fn off_size(limit: usize, e: Triple) -> bool
    ensures { result ≡ off_size limit e }
{
    !(is_extent(limit, e.x) && is_extent(limit, e.y) && is_extent(limit, e.z))
}

// Whether origin + extent is above 1,024 on an axis.
fn beyond(n: usize, o: usize) -> bool
    ensures { result ≡ ltb 1024 (o + n) }
{
    n > 1024 || o > 1024 - n
}

// Whether a block's extent is off size, or origin + extent is above 1,024.
#[tactic(auto, unfolding(cells::specs::Extents::off_place))]
pub fn off_place(e: Triple, o: Triple) -> bool
    ensures { result ≡ off_place e o }
{
    off_size(64, e) || beyond(e.x, o.x) || beyond(e.y, o.y) || beyond(e.z, o.z)
}

// How many cells the grid of a block or a volume has. Not an entry.
#[tactic(auto, unfolding(cells::specs::Grid::cells, cells::specs::Grid::sides, cells::specs::Box::volume))]
pub fn grid_cells(e: Triple) -> usize
    requires { Sized 1024 e }
    ensures { result ≡ cells e }
{
    let w = 2 * e.x - 1;
    let h = 2 * e.y - 1;
    let d = 2 * e.z - 1;
    w * h * d
}
