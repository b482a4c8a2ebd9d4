// The point step of a job.
#![tactic(auto)]

ghost use Rattle.std.specs.Prelude.{◌≡◌, [], ◌*◌, ◌≤◌, length};
ghost use Rattle.joiner.specs.Calls.{point, answer};
ghost use Rattle.joiner.specs.Outcomes.{PointDone, CallStep};
ghost use Rattle.job.specs.JobState.{job_after, state_by};
ghost use Rattle.refusals.specs.Refusals.{number_of};
ghost use Rattle.step_point.specs.Inner.{lent, point_lengths, Ready, Closes};

use blocks::Cuts;
use counts::Counts;
use job::{Job, Stage};
use joiner::{POINT_TICK, TICKS_PER_BLOCK};
use judge::{KindLengths, Lengths, NO_KIND_LENGTHS, NO_LENGTHS, entry_of};
use judge_point::judge_points;
use kind_numbers::number_copied;
use pass_point::store_points;
use refusals::Refusal;
use stages::advance;

// Numbers the n points of a job that is closed. In any other stage nothing changes.
fn close(
    job: Job,
    n: u32,
    keys: &[u64],
    rows: &[u32],
    numbers: &mut [u32],
    firsts: &mut [u64],
    listed: &mut [u32],
) -> Job
    requires { (n ≤ length keys.now) × (n ≤ length numbers.old) × (n ≤ length firsts.old) × (6 * n ≤ length listed.old) }
    ensures { Closes job n keys.now rows.now numbers.old numbers.new firsts.old firsts.new listed.old listed.new result }
{
    if job.stage != Stage::Closed {
        return job;
    }
    // Points have no links.
    let total = number_copied(&rows[..0], keys, rows, 6, numbers, firsts, listed, n);
    Job {
        numbered: Counts {
            points: total,
            ..job.numbered
        },
        ..job
    }
}

// The step, where it is not refused: the points stand after those found before.
fn accept(
    job: Job,
    cuts: &Cuts,
    ticks: &mut [u32],
    table: &[u32],
    curves: &[u32],
    keys: &mut [u64],
    rows: &mut [u32],
    numbers: &mut [u32],
    firsts: &mut [u64],
    listed: &mut [u32],
    block: u32,
    m: &[u32],
    points: u32,
) -> Job
    requires { Ready job cuts.now (lent ticks.old table.now curves.now keys.old rows.old numbers.old firsts.old listed.old) block m.now points }
    ensures { PointDone
        (state_by job cuts.now
        (lent ticks.old table.now curves.now keys.old rows.old numbers.old firsts.old listed.old))
        block m.now
        (state_by result cuts.now
        (lent ticks.new table.now curves.now keys.new rows.new numbers.new firsts.new listed.new)) }
{
    let b = block as usize;
    let step = TICKS_PER_BLOCK * b + POINT_TICK;
    let at = job.sofar.points as usize;
    let v = job.extents();
    let r = cuts.block_at(b);
    let d = entry_of(table, block);
    let found = Counts {
        faces: 0,
        curves: 0,
        points,
    };
    let next = advance(job, ticks, cuts, step, found);
    store_points(keys, rows, at, m, v, r, b, curves, d.curve_from);
    close(next, next.sofar.points, keys, rows, numbers, firsts, listed)
}

// The length of a table of points.
fn point_lengths(points: usize) -> KindLengths
    ensures { result ≡ point_lengths points }
{
    KindLengths {
        points,
        ..NO_KIND_LENGTHS
    }
}

// Finds the points of a block, once the curves have their final numbers. The last block's step numbers all points and closes the job.
// Kept: each table apart, as the C interface (`tugrelis_point`) lends it.
pub fn point(
    job: Job,
    cuts: &Cuts,
    ticks: &mut [u32],
    blocks: &[u32],
    curve_numbers: &[u32],
    point_keys: &mut [u64],
    point_rows: &mut [u32],
    point_numbers: &mut [u32],
    point_firsts: &mut [u64],
    point_listed: &mut [u32],
    block: u32,
    m: &[u32],
) -> Result<Job, Refusal>
    ensures { CallStep
        (state_by job cuts.now
        (lent ticks.old blocks.now curve_numbers.now point_keys.old point_rows.old point_numbers.old
        point_firsts.old point_listed.old))
        (point block m.now) (answer (number_of result) 0 [])
        (state_by (job_after job result) cuts.now
        (lent ticks.new blocks.now curve_numbers.now point_keys.new point_rows.new point_numbers.new
        point_firsts.new point_listed.new)) }
{
    let lengths = Lengths {
        ticks: ticks.len(),
        blocks: blocks.len(),
        keys: point_lengths(point_keys.len()),
        rows: point_lengths(point_rows.len()),
        numbers: KindLengths {
            curves: curve_numbers.len(),
            ..point_lengths(point_numbers.len())
        },
        firsts: point_lengths(point_firsts.len()),
        listed: point_lengths(point_listed.len()),
        ..NO_LENGTHS
    };
    let points = judge_points(job, cuts, ticks, lengths, blocks, curve_numbers, block, m)?;
    Ok(accept(
        job,
        cuts,
        ticks,
        blocks,
        curve_numbers,
        point_keys,
        point_rows,
        point_numbers,
        point_firsts,
        point_listed,
        block,
        m,
        points,
    ))
}
