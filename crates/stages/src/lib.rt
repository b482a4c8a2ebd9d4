// The tick of an accepted step, and the stage of the job after it: the next stage begins when the last step of the one before is done.
#![tactic(auto)]

ghost use Rattle.std.specs.Prelude.{◌≡◌, not, ◌||◌, suc, ◌+◌, ◌≤◌, ◌<◌, ltb, length};
ghost use Rattle.cutting.specs.Cutting.{intervals, most_blocks, FewBlocks};
ghost use Rattle.joiner.specs.Job.{Enrol, ticks_per_block};
ghost use Rattle.joiner.specs.Stages.{next_stage, finished, next_after};
ghost use Rattle.stages.specs.Ticks.{ticked_in, ticked_to, block_ticked, seams_ticked_to};
ghost use Rattle.stages.specs.Advanced.{Advanced};
ghost use Rattle.blocks.specs.Blocks.{AnyExtents};
ghost use Rattle.job.specs.JobState.{stage_of};

use blocks::{Cuts, intervals};
use counts::Counts;
use job::{Job, Stage};
use joiner::{CROSSING_TICK, POINT_TICK, TICKS_PER_BLOCK};
use lists::read_or;

// Whether step i is ticked. Not an entry.
#[tactic(auto, unfolding(crate::specs::Ticks::ticked_in))]
pub fn is_ticked(ticks: &[u32], i: usize) -> bool
    ensures { result ≡ ticked_in ticks.now i }
{
    read_or(ticks, i, 0) != 0
}

// Whether the step in this column of each block is ticked.
#[tactic(auto, using(crate::proofs::StageLaws::column_none, crate::proofs::StageLaws::column_more, crate::proofs::StageLaws::column_broken, crate::proofs::StageLaws::column_all))]
fn column_ticked(ticks: &[u32], column: usize, blocks: usize) -> bool
    requires { (column < ticks_per_block) × (blocks ≤ most_blocks) }
    ensures { result ≡ ticked_to (ticked_in ticks.now) column blocks }
{
    for b in 0..blocks {
        if !is_ticked(ticks, TICKS_PER_BLOCK * b + column) {
            return false;
        }
    }
    true
}

// Whether the seam after interval i, where there is one, is ticked. It is step s.
#[tactic(auto, using(crate::proofs::StageLaws::next_is, crate::proofs::StageLaws::intervals_some))]
fn seam_ticked(ticks: &[u32], s: usize, c: &[u32], i: usize) -> bool
    ensures { result ≡ (not (ltb (suc i) (intervals c.now)) || ticked_in ticks.now s) }
{
    i >= intervals(c) - 1 || is_ticked(ticks, s)
}

// Whether the seams of block b as the lower block are ticked.
#[tactic(auto, using(crate::proofs::StageLaws::intervals_some), unfolding(crate::specs::Ticks::block_ticked))]
fn block_ticked(ticks: &[u32], cuts: &Cuts, b: usize) -> bool
    requires { b < most_blocks }
    ensures { result ≡ block_ticked cuts.now ticks.now b }
{
    let w = intervals(cuts.x);
    let h = intervals(cuts.y);
    let first = TICKS_PER_BLOCK * b;
    seam_ticked(ticks, first + 1, cuts.x, b % w)
        && seam_ticked(ticks, first + 2, cuts.y, b / w % h)
        && seam_ticked(ticks, first + 3, cuts.z, b / w / h)
}

// Whether the seams of every block are ticked.
#[tactic(auto, using(crate::proofs::StageLaws::seams_start, crate::proofs::StageLaws::seams_more, crate::proofs::StageLaws::seams_broken, crate::proofs::StageLaws::seams_end))]
fn seams_ticked(ticks: &[u32], cuts: &Cuts, blocks: usize) -> bool
    requires { blocks ≤ most_blocks }
    ensures { AnyExtents cuts.now (λ k. result ≡ seams_ticked_to k (ticked_in ticks.now) blocks) }
{
    for b in 0..blocks {
        if !block_ticked(ticks, cuts, b) {
            return false;
        }
    }
    true
}

// Whether every step of a stage is ticked. A closed job has none. Not an entry.
#[tactic(auto, using(crate::proofs::StageLaws::few_blocks, crate::proofs::StageLaws::done_enrol, crate::proofs::StageLaws::done_crossing, crate::proofs::StageLaws::done_points, crate::proofs::StageLaws::done_seam, crate::proofs::StageLaws::done_closed))]
pub fn finished(stage: Stage, ticks: &[u32], cuts: &Cuts) -> bool
    requires { FewBlocks cuts.now.x.now cuts.now.y.now cuts.now.z.now }
    ensures { AnyExtents cuts.now (λ k. result ≡ finished k (ticked_in ticks.now) (stage_of stage)) }
{
    let blocks = cuts.block_count();
    match stage {
        Stage::Enrol => column_ticked(ticks, 0, blocks),
        Stage::Seam => seams_ticked(ticks, cuts, blocks),
        Stage::Crossing => column_ticked(ticks, CROSSING_TICK, blocks),
        Stage::Points => column_ticked(ticks, POINT_TICK, blocks),
        Stage::Closed => true,
    }
}

// A stage without steps is passed over: one block has no seams.
#[tactic(auto, using(crate::proofs::StageLaws::after_one, crate::proofs::StageLaws::after_more))]
fn after_enrol(cuts: &Cuts) -> Stage
    requires { FewBlocks cuts.now.x.now cuts.now.y.now cuts.now.z.now }
    ensures { AnyExtents cuts.now (λ k. stage_of result ≡ next_stage k Enrol) }
{
    if cuts.block_count() == 1 {
        return Stage::Crossing;
    }
    Stage::Seam
}

// The stage that follows a finished one.
#[tactic(auto, using(crate::proofs::StageLaws::follows_enrol, crate::proofs::StageLaws::follows_seam, crate::proofs::StageLaws::follows_crossing, crate::proofs::StageLaws::follows_points, crate::proofs::StageLaws::follows_closed))]
fn after(stage: Stage, cuts: &Cuts) -> Stage
    requires { FewBlocks cuts.now.x.now cuts.now.y.now cuts.now.z.now }
    ensures { AnyExtents cuts.now (λ k. stage_of result ≡ next_stage k (stage_of stage)) }
{
    match stage {
        Stage::Enrol => after_enrol(cuts),
        Stage::Seam => Stage::Crossing,
        Stage::Crossing => Stage::Points,
        Stage::Points | Stage::Closed => Stage::Closed,
    }
}

// The stage after a step was ticked. Not an entry.
#[tactic(auto, using(crate::proofs::StageLaws::stage_next, crate::proofs::StageLaws::stage_same))]
pub fn next_stage(stage: Stage, ticks: &[u32], cuts: &Cuts) -> Stage
    requires { FewBlocks cuts.now.x.now cuts.now.y.now cuts.now.z.now }
    ensures { AnyExtents cuts.now (λ k. stage_of result ≡ next_after k (ticked_in ticks.now) (stage_of stage)) }
{
    if finished(stage, ticks, cuts) {
        return after(stage, cuts);
    }
    stage
}

// ---- the tick

// Ticks a step, moves the stage on with its last one, and adds to the tallies. Not an entry.
#[tactic(auto, using(crate::proofs::AdvancedLaws::advanced))]
pub fn advance(job: Job, ticks: &mut [u32], cuts: &Cuts, step: usize, more: Counts) -> Job
    requires step_in_bounds { (step < length ticks.old) × FewBlocks cuts.now.x.now cuts.now.y.now cuts.now.z.now }
    requires faces_bound { (job.sofar.faces + more.faces ≤ job.entries.faces) × (job.sofar.curves + more.curves ≤ job.entries.curves) × (job.sofar.points + more.points ≤ job.entries.points) }
    ensures { Advanced job cuts.now ticks.old ticks.new step more result }
{
    ticks[step] = 1;
    let stage_after = next_stage(job.stage, ticks, cuts);
    Job {
        stage: stage_after,
        sofar: Counts {
            faces: job.sofar.faces + more.faces,
            curves: job.sofar.curves + more.curves,
            points: job.sofar.points + more.points,
        },
        ..job
    }
}
