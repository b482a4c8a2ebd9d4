ghost use Rattle.std.specs.Prelude.{[]};
ghost use Rattle.joiner.specs.Calls.{point, answer};
ghost use Rattle.joiner.specs.Outcomes.{CallStep};
ghost use Rattle.job.specs.JobState.{state_by, job_after, AnyTables};
ghost use Rattle.refusals.specs.Refusals.{number_of};
ghost use Rattle.job.specs.Lent.{point_lent};

use crate::Joining;
use blocks::Cuts;
use job::Job;
use refusals::Refusal;
use step_point::point;

impl Joining {
    // Finds the points of a block; the last one numbers them and closes the job.
    pub fn point(
        self,
        cuts: &Cuts,
        ticks: &mut [u32],
        blocks: &[u32],
        point_keys: &mut [u64],
        point_rows: &mut [u32],
        curve_numbers: &[u32],
        point_numbers: &mut [u32],
        point_firsts: &mut [u64],
        point_listed: &mut [u32],
        block: u32,
        m: &[u32],
    ) -> Result<Job, Refusal>
        ensures { AnyTables (λ t. CallStep
            (state_by self.job cuts.now
            (point_lent t ticks.old blocks.now point_keys.old point_rows.old curve_numbers.now
            point_numbers.old point_firsts.old point_listed.old))
            (point block m.now) (answer (number_of result) 0 [])
            (state_by (job_after self.job result) cuts.now
            (point_lent t ticks.new blocks.now point_keys.new point_rows.new curve_numbers.now
            point_numbers.new point_firsts.new point_listed.new))) }
    {
        point(
            self.job,
            cuts,
            ticks,
            blocks,
            curve_numbers,
            point_keys,
            point_rows,
            point_numbers,
            point_firsts,
            point_listed,
            block,
            m,
        )
    }
}
