// The crossing step of a job. The last one numbers faces and curves.
#![tactic(auto)]

ghost use Rattle.std.specs.Prelude.{◌≡◌, []};
ghost use Rattle.joiner.specs.Calls.{cross, answer};
ghost use Rattle.joiner.specs.Outcomes.{CallStep, CrossingDone};
ghost use Rattle.job.specs.JobState.{job_after, state_by};
ghost use Rattle.refusals.specs.Refusals.{number_of};
ghost use Rattle.step_cross.specs.Inner.{lent, two_lengths, Ready};

use blocks::Cuts;
use counts::Counts;
use job::{Job, Stage};
use judge::{KindLengths, Lengths};
use judge_cross::judge_crossing;
use refusals::Refusal;
use store_cross::{join_curves, number_both};

// The step, where it is not refused.
fn accept(
    job: Job,
    cuts: &Cuts,
    ticks: &mut [u32],
    table: &[u32],
    face_links: &mut [u32],
    curve_links: &mut [u32],
    face_keys: &[u64],
    curve_keys: &[u64],
    face_rows: &[u32],
    curve_rows: &[u32],
    face_numbers: &mut [u32],
    curve_numbers: &mut [u32],
    face_firsts: &mut [u64],
    curve_firsts: &mut [u64],
    face_listed: &mut [u32],
    curve_listed: &mut [u32],
    b: u32,
    m: &[u32],
) -> Job
    requires { Ready (state_by job cuts.now
        (lent ticks.old table.now face_links.old curve_links.old face_keys.now curve_keys.now face_rows.now curve_rows.now
        face_numbers.old curve_numbers.old face_firsts.old curve_firsts.old face_listed.old curve_listed.old)) b m.now }
    ensures { CrossingDone
        (state_by job cuts.now
        (lent ticks.old table.now face_links.old curve_links.old face_keys.now curve_keys.now face_rows.now curve_rows.now
        face_numbers.old curve_numbers.old face_firsts.old curve_firsts.old face_listed.old curve_listed.old))
        b m.now
        (state_by result cuts.now
        (lent ticks.new table.now face_links.new curve_links.new face_keys.now curve_keys.now face_rows.now curve_rows.now
        face_numbers.new curve_numbers.new face_firsts.new curve_firsts.new face_listed.new curve_listed.new)) }
{
    let next = join_curves(job, cuts, ticks, table, face_links, curve_links, b, m);
    if next.stage != Stage::Points {
        return next;
    }
    let both = number_both(
        face_links,
        curve_links,
        face_keys,
        curve_keys,
        face_rows,
        curve_rows,
        face_numbers,
        curve_numbers,
        face_firsts,
        curve_firsts,
        face_listed,
        curve_listed,
        job.sofar.faces,
        job.sofar.curves,
    );
    Job {
        numbered: Counts {
            points: next.numbered.points,
            ..both
        },
        ..next
    }
}

// The lengths of a table of faces and one of curves.
fn two_lengths(faces: usize, curves: usize) -> KindLengths
    ensures { result ≡ two_lengths faces curves }
{
    KindLengths {
        faces,
        curves,
        points: 0,
    }
}

// Crosses a block: joins its curves that meet at a point cell with equal rows, and with the last block numbers faces and curves.
// Kept: each table apart, as the C interface (`tugrelis_crossing`) lends it.
pub fn crossing(
    job: Job,
    cuts: &Cuts,
    ticks: &mut [u32],
    blocks: &[u32],
    face_links: &mut [u32],
    curve_links: &mut [u32],
    face_keys: &[u64],
    curve_keys: &[u64],
    face_rows: &[u32],
    curve_rows: &[u32],
    face_numbers: &mut [u32],
    curve_numbers: &mut [u32],
    face_firsts: &mut [u64],
    curve_firsts: &mut [u64],
    face_listed: &mut [u32],
    curve_listed: &mut [u32],
    block: u32,
    m: &[u32],
) -> Result<Job, Refusal>
    ensures { CallStep
        (state_by job cuts.now
        (lent ticks.old blocks.now face_links.old curve_links.old face_keys.now curve_keys.now face_rows.now curve_rows.now
        face_numbers.old curve_numbers.old face_firsts.old curve_firsts.old face_listed.old curve_listed.old))
        (cross block m.now) (answer (number_of result) 0 [])
        (state_by (job_after job result) cuts.now
        (lent ticks.new blocks.now face_links.new curve_links.new face_keys.now curve_keys.now face_rows.now curve_rows.now
        face_numbers.new curve_numbers.new face_firsts.new curve_firsts.new face_listed.new curve_listed.new)) }
{
    let lengths = Lengths {
        ticks: ticks.len(),
        blocks: blocks.len(),
        links: two_lengths(face_links.len(), curve_links.len()),
        keys: two_lengths(face_keys.len(), curve_keys.len()),
        rows: two_lengths(face_rows.len(), curve_rows.len()),
        numbers: two_lengths(face_numbers.len(), curve_numbers.len()),
        firsts: two_lengths(face_firsts.len(), curve_firsts.len()),
        listed: two_lengths(face_listed.len(), curve_listed.len()),
    };
    judge_crossing(
        job,
        cuts,
        ticks,
        lengths,
        blocks,
        curve_rows,
        face_links,
        curve_links,
        block,
        m,
    )?;
    Ok(accept(
        job,
        cuts,
        ticks,
        blocks,
        face_links,
        curve_links,
        face_keys,
        curve_keys,
        face_rows,
        curve_rows,
        face_numbers,
        curve_numbers,
        face_firsts,
        curve_firsts,
        face_listed,
        curve_listed,
        block,
        m,
    ))
}
