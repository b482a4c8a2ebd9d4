// The tests of a point step: the judge's, then the final numbers of the block's curves, and whether its points have room.
#![tactic(auto)]

ghost use Rattle.std.specs.Prelude.{◌≡◌, length};
ghost use Rattle.cells.specs.Extents.{Sized};
ghost use Rattle.cells.specs.Grid.{cells};
ghost use Rattle.job.specs.JobState.{AnyCuts, job_by, job_of};
ghost use Rattle.judge_point.specs.Tests.{curves_in, found_by, late_of, found_of, refusal_of, Plans};

use blocks::{Block, Cuts};
use job::Job;
use joiner::{POINT_TICK, TICKS_PER_BLOCK};
use judge::{CallName, Entry, Lengths, entry_of, judge, number_stands};
use pass_point::count_points;
use refusals::Refusal;

// Whether the final number of each of the block's curves is one of the closed table's.
fn numbers_stand(curves: &[u32], most: u32, from: u32, count: u32) -> bool
    ensures { result ≡ curves_in curves.now most from count }
{
    let start = from as usize;
    (start..start + count as usize).all(|i| number_stands(curves, most, i))
}

// The refusals by the curves' final numbers and the room for points, and the block's points where there is none. They are counted before
// anything is stored.
fn late(job: Job, block: Block, entry: Entry, curves: &[u32], m: &[u32]) -> Result<u32, Refusal>
    requires { Sized 64 block.size × (length m.now ≡ cells block.size) }
    ensures { AnyCuts (λ cx cy cz. Plans (late_of (job_of job cx cy cz) block.size entry curves.now m.now)
        (found_by block.size entry curves.now m.now) result) }
{
    if !numbers_stand(curves, job.numbered.curves, entry.curve_from, entry.curves) {
        return Err(Refusal::StrayLabel);
    }
    let points = count_points(m, block.size, curves, entry.curve_from);
    if u64::from(job.sofar.points) + u64::from(points) > u64::from(job.entries.points) {
        return Err(Refusal::TableFull);
    }
    Ok(points)
}

// The lowest refusal that applies. Where there is none, the block's points.
pub fn judge_points(
    job: Job,
    cuts: &Cuts,
    ticks: &[u32],
    lengths: Lengths,
    table: &[u32],
    curves: &[u32],
    b: u32,
    m: &[u32],
) -> Result<u32, Refusal>
    ensures { Plans (refusal_of (job_by job cuts.now) ticks.now lengths table.now curves.now b m.now)
        (found_of (job_by job cuts.now).told.cutting table.now curves.now b m.now) result }
{
    let step = TICKS_PER_BLOCK * b as usize + POINT_TICK;
    judge(
        job,
        cuts,
        ticks,
        table,
        CallName::Points,
        lengths,
        b,
        step,
        m,
    )?;
    let block = cuts.block_at(b as usize);
    late(job, block, entry_of(table, b), curves, m)
}
