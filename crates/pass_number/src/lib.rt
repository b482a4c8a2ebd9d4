// The numbering pass of the labeller: the cells of one order get their numbers in the order of their positions. A cell's link is needed no longer once
// the cell has its number, so the pass leaves zeros in the table of links: the next order finds a cleared one.
#![tactic(auto)]

ghost use Rattle.std.specs.Prelude.{◌≡◌, ◌*◌, ◌-◌, ◌<◌, ◌≤◌, eqb, length};
ghost use Rattle.lists.specs.Lists.{consecutive, keep, zeros};
ghost use Rattle.closure.specs.Joined.{rep};
ghost use Rattle.closure.specs.Numbered.{count_below, leader};
ghost use Rattle.cells.specs.Extents.{Sized};
ghost use Rattle.cells.specs.Grid.{cells, order};
ghost use Rattle.labels.specs.Number.{edges, active_of, numbered};
ghost use Rattle.lines.specs.Lines.{line_count, Strided};
ghost use Rattle.pass_number.specs.Scan.{scanned, scan_at, scan_cells};
ghost use Rattle.pass_number.specs.Spanning.{Spanning};

use cells::Triple;
use lines::{Strides, line_count, row_near, strided_line};
use union_find::parent;

// Numbers cell p, which has n odd axes, by its strides. Where it takes its parent's number, its link is cleared. The total is how many components are numbered so far.
#[tactic(auto, using(union_find::proofs::LinkLaws::parent_low, crate::proofs::ScanLaws::at_inactive, crate::proofs::ScanLaws::at_root, crate::proofs::ScanLaws::at_child))]
fn number_at(
    map: &mut [u32],
    e: Triple,
    n: usize,
    p: usize,
    s: Strides,
    links: &mut [u32],
    total: u32,
) -> u32
    requires { (length map.old ≡ cells e) × (length links.old ≡ cells e) × (p < cells e) × (p < 4294967295) × (total ≤ p) × Strided e p n s.first s.middle s.last }
    ensures { scanned map.new links.new result ≡ scan_at e p (scanned map.old links.old total) }
{
    let r = row_near(map, e, n, p, s);
    if r[0] == 0 {
        map[p] = 0;
        return total;
    }
    let q = parent(links, p as u32) as usize;
    if q == p {
        map[p] = total + 1;
        return total + 1;
    }
    map[p] = map[q];
    links[p] = 0;
    total
}

// Numbers the cells of order j on line l.
fn number_line(map: &mut [u32], e: Triple, j: usize, l: usize, links: &mut [u32], total: u32) -> u32
    requires { Sized 64 e × (length map.old ≡ cells e) × (length links.old ≡ cells e) × (j ≤ 2) × (l < line_count e) × (total ≤ l * (2 * e.x - 1)) }
    ensures { scanned map.new links.new result
        ≡ scan_cells e (keep (λ p. eqb (order e p) j) (consecutive (l * (2 * e.x - 1)) (2 * e.x - 1))) (scanned map.old links.old total) }
{
    let n = 3 - j;
    let s = strided_line(e, n, l);
    let line = s.line;
    let mut t = total;
    for k in 0..line.count {
        let p = line.base + (line.start + 2 * k);
        t = number_at(map, e, n, p, s.strides, links, t);
    }
    t
}

// Numbers the cells of order j over links that join the cells of each component, and answers how many components there are. The links are left with
// zeros. Not an entry.
pub fn number_cells(map: &mut [u32], e: Triple, j: usize, links: &mut [u32]) -> u32
    requires { Sized 64 e × (length map.old ≡ cells e) × (j ≤ 2) × Spanning e map.old j links.old }
    ensures numbers { map.new ≡ numbered e j map.old }
    ensures total { result ≡ count_below (leader (rep (edges e map.old j)) (active_of e map.old j)) (cells e) }
    ensures cleared { links.new ≡ zeros (cells e) }
{
    let mut total: u32 = 0;
    for l in 0..line_count(e) {
        total = number_line(map, e, j, l, links, total);
    }
    total
}
