// The codes of a block laid straight into its map: each at its voxel, and 0 at every other cell. Each cell is written once, whatever it held.
#![tactic(auto)]

ghost use Rattle.std.specs.Prelude.{◌≡◌, ◌+◌, ◌*◌, ◌-◌, ◌<◌, ◌≤◌, length};
ghost use Rattle.lists.specs.Lists.{tabulate, overlay};
ghost use Rattle.cells.specs.Box.{volume};
ghost use Rattle.cells.specs.Extents.{Sized};
ghost use Rattle.cells.specs.Grid.{cells};
ghost use Rattle.labels.specs.Number.{code_at};
ghost use Rattle.lines.specs.Lines.{line_count};
ghost use Rattle.pass_fill.specs.CodeOn.{code_on};

use cells::Triple;
use lines::{line_count, line_with};
use lists::write_zeros;

// Lays codes along a line of voxels whose cells begin at base: one at every second cell, and 0 between them.
fn lay_codes(codes: &[u32], map: &mut [u32], base: usize)
    requires { (0 < length codes.now) × (base + (2 * length codes.now - 1) ≤ length map.old) }
    ensures { map.new ≡ overlay map.old base (code_on codes.now 0) (2 * length codes.now - 1) }
{
    let last = codes.len() - 1;
    for i in 0..last {
        let at = base + 2 * i;
        map[at] = codes[i];
        map[at + 1] = 0;
    }
    map[base + 2 * last] = codes[last];
}

// Lays the codes of line l. It is a line of voxels if one stands at x = 0.
fn fill_line(codes: &[u32], e: Triple, l: usize, map: &mut [u32])
    requires { Sized 64 e × (length codes.now ≡ volume e) × (length map.old ≡ cells e) × (l < line_count e) }
    ensures { map.new ≡ overlay map.old (l * (2 * e.x - 1)) (λ x. code_at e codes.now (l * (2 * e.x - 1) + x)) (2 * e.x - 1) }
{
    let h = 2 * e.y - 1;
    let y = l % h;
    let z = l / h;
    let line = line_with(e, 0, l, y % 2 + z % 2);
    if line.start == 0 {
        let v = y / 2 * e.x + z / 2 * (e.x * e.y);
        lay_codes(&codes[v..v + e.x], map, line.base);
    } else {
        write_zeros(map, line.base, line.width);
    }
}

// Lays the codes of a block. Not an entry.
pub fn fill(codes: &[u32], e: Triple, map: &mut [u32])
    requires { Sized 64 e × (length codes.now ≡ volume e) × (length map.old ≡ cells e) }
    ensures { map.new ≡ tabulate (cells e) (code_at e codes.now) }
{
    for l in 0..line_count(e) {
        fill_line(codes, e, l, map);
    }
}
