ghost use Rattle.std.specs.Prelude.{[]};
ghost use Rattle.joiner.specs.Calls.{join, answer};
ghost use Rattle.joiner.specs.Outcomes.{CallStep};
ghost use Rattle.job.specs.JobState.{state_by, job_after, AnyTables};
ghost use Rattle.refusals.specs.Refusals.{number_of};
ghost use Rattle.job.specs.Lent.{seam_lent};

use crate::Joining;
use blocks::Cuts;
use job::Job;
use refusals::Refusal;
use step_seam::seam;

impl Joining {
    // Joins two blocks at their seam.
    pub fn seam(
        self,
        cuts: &Cuts,
        ticks: &mut [u32],
        blocks: &[u32],
        face_links: &mut [u32],
        curve_links: &mut [u32],
        lower: u32,
        upper: u32,
        m: &[u32],
        n: &[u32],
    ) -> Result<Job, Refusal>
        ensures { AnyTables (λ t. CallStep
            (state_by self.job cuts.now
            (seam_lent t ticks.old blocks.now face_links.old curve_links.old))
            (join lower upper m.now n.now) (answer (number_of result) 0 [])
            (state_by (job_after self.job result) cuts.now
            (seam_lent t ticks.new blocks.now face_links.new curve_links.new))) }
    {
        seam(
            self.job,
            cuts,
            ticks,
            blocks,
            face_links,
            curve_links,
            lower,
            upper,
            m,
            n,
        )
    }
}
