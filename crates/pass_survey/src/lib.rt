// What every step of a job learns of a map first: the largest number of each order.
#![tactic(auto)]

ghost use Rattle.std.specs.Prelude.{◌≡◌, ◌+◌, ◌≤◌, ◌<◌, max, length};
ghost use Rattle.cells.specs.Extents.{Sized};
ghost use Rattle.cells.specs.Grid.{cells};
ghost use Rattle.labels.specs.Components.{largest};
ghost use Rattle.lines.specs.Lines.{line_count, line_y, line_z};
ghost use Rattle.pass_survey.specs.Survey.{on_line, most, line_added};

use cells::Triple;
use counts::Counts;
use lines::{line_count, line_with};

// The larger of a number and the largest one of the cells of order j on line l, of which q axes are odd.
fn larger_on(map: &[u32], e: Triple, j: usize, l: usize, q: usize, number: u32) -> u32
    requires { Sized 64 e × (length map.now ≡ cells e) × (j ≤ 2) × (l < line_count e) × (q ≡ line_y e l + line_z e l) }
    ensures { result ≡ max number (most map.now (on_line e j l)) }
{
    let line = line_with(e, 3 - j, l, q);
    let mut m = number;
    for k in 0..line.count {
        m = m.max(map[line.base + (line.start + 2 * k)]);
    }
    m
}

// Takes in line l. It has cells of two orders at most: the loops for the others end at once.
#[tactic(auto, unfolding(crate::specs::Survey::line_added, lines::specs::Lines::line_y, lines::specs::Lines::line_z, cells::specs::Grid::sides))]
fn take_line(map: &[u32], e: Triple, l: usize, s: Counts) -> Counts
    requires { Sized 64 e × (length map.now ≡ cells e) × (l < line_count e) }
    ensures { result ≡ line_added e map.now l s }
{
    let h = 2 * e.y - 1;
    let q = l % h % 2 + l / h % 2;
    Counts {
        faces: larger_on(map, e, 2, l, q, s.faces),
        curves: larger_on(map, e, 1, l, q, s.curves),
        points: larger_on(map, e, 0, l, q, s.points),
    }
}

// Surveys a map in one pass. Not an entry.
#[tactic(auto, using(crate::proofs::SurveyLaws::looked_all))]
pub fn survey_map(map: &[u32], e: Triple) -> Counts
    requires { Sized 64 e × (length map.now ≡ cells e) }
    ensures faces { result.faces ≡ largest e map.now 2 }
    ensures curves { result.curves ≡ largest e map.now 1 }
    ensures points { result.points ≡ largest e map.now 0 }
{
    let mut s = Counts {
        faces: 0,
        curves: 0,
        points: 0,
    };
    for l in 0..line_count(e) {
        s = take_line(map, e, l, s);
    }
    s
}
