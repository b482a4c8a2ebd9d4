// The seam step of a job.
#![tactic(auto)]

ghost use Rattle.std.specs.Prelude.{◌≡◌, [], length};
ghost use Rattle.joiner.specs.Calls.{join, answer};
ghost use Rattle.joiner.specs.Declines.{refusal};
ghost use Rattle.joiner.specs.Outcomes.{CallStep, SeamDone};
ghost use Rattle.job.specs.JobState.{job_after, state_by};
ghost use Rattle.refusals.specs.Refusals.{number_of};
ghost use Rattle.judge_seam.specs.Tests.{lent};
ghost use Rattle.step_seam.specs.Inner.{Linked};

use blocks::Cuts;
use counts::Counts;
use job::Job;
use judge::{Entry, entry_of};
use judge_seam::{Shared, axis_number, judge_seam, shared_layer, step_of};
use pass_seam::{Joint, Side, join_layers};
use refusals::Refusal;
use stages::advance;

// Joins the faces and the curves that both blocks have in the layer. Faces have one odd coordinate among column and row, curves two.
fn link(
    face_links: &mut [u32],
    curve_links: &mut [u32],
    job: Job,
    s: Shared,
    d: Entry,
    g: Entry,
    m: &[u32],
    n: &[u32],
)
    requires { (length face_links.old ≡ job.entries.faces) × (length curve_links.old ≡ job.entries.curves) }
    ensures { Linked face_links.old face_links.new curve_links.old curve_links.new s d g
        job.entries.faces job.entries.curves m.now n.now }
{
    let low = Side {
        map: m,
        layer: s.lower,
    };
    let high = Side {
        map: n,
        layer: s.upper,
    };
    let faces = Joint {
        odd: 1,
        from: d.face_from,
        to: g.face_from,
        size: job.entries.faces,
    };
    let curves = Joint {
        odd: 2,
        from: d.curve_from,
        to: g.curve_from,
        size: job.entries.curves,
    };
    join_layers(face_links, low, high, faces, s.columns, s.rows);
    join_layers(curve_links, low, high, curves, s.columns, s.rows);
}

// The step, where it is not refused.
fn accept(
    job: Job,
    cuts: &Cuts,
    ticks: &mut [u32],
    table: &[u32],
    face_links: &mut [u32],
    curve_links: &mut [u32],
    lower: u32,
    upper: u32,
    m: &[u32],
    n: &[u32],
) -> Job
    requires { refusal
        (state_by job cuts.now (lent ticks.old table.now face_links.old curve_links.old))
        (join lower upper m.now n.now) ≡ 0 }
    ensures { SeamDone
        (state_by job cuts.now (lent ticks.old table.now face_links.old curve_links.old))
        lower upper m.now n.now
        (state_by result cuts.now (lent ticks.new table.now face_links.new curve_links.new)) }
{
    let axis = axis_number(cuts.seam_axis(lower, upper));
    let below = cuts.block_at(lower as usize);
    let above = cuts.block_at(upper as usize);
    let s = shared_layer(below, above, axis);
    let d = entry_of(table, lower);
    let g = entry_of(table, upper);
    link(face_links, curve_links, job, s, d, g, m, n);
    let none = Counts {
        faces: 0,
        curves: 0,
        points: 0,
    };
    advance(job, ticks, cuts, step_of(lower, axis), none)
}

// Joins two neighbouring blocks at the layer that they share.
pub fn seam(
    job: Job,
    cuts: &Cuts,
    ticks: &mut [u32],
    blocks: &[u32],
    face_links: &mut [u32],
    curve_links: &mut [u32],
    lower: u32,
    upper: u32,
    m: &[u32],
    n: &[u32],
) -> Result<Job, Refusal>
    ensures { CallStep
        (state_by job cuts.now (lent ticks.old blocks.now face_links.old curve_links.old))
        (join lower upper m.now n.now) (answer (number_of result) 0 [])
        (state_by (job_after job result) cuts.now (lent ticks.new blocks.now face_links.new curve_links.new)) }
{
    judge_seam(
        job,
        cuts,
        ticks,
        blocks,
        face_links,
        curve_links,
        lower,
        upper,
        m,
        n,
    )?;
    Ok(accept(
        job,
        cuts,
        ticks,
        blocks,
        face_links,
        curve_links,
        lower,
        upper,
        m,
        n,
    ))
}
