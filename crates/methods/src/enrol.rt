ghost use Rattle.std.specs.Prelude.{[]};
ghost use Rattle.joiner.specs.Calls.{enrol, answer};
ghost use Rattle.joiner.specs.Outcomes.{CallStep};
ghost use Rattle.job.specs.JobState.{state_by, job_after, AnyTables};
ghost use Rattle.refusals.specs.Refusals.{number_of};
ghost use Rattle.job.specs.Lent.{enrol_lent};

use crate::Joining;
use blocks::Cuts;
use job::Job;
use refusals::Refusal;
use step_enrol::enrol;

impl Joining {
    // Enrols a block with its map.
    pub fn enrol(
        self,
        cuts: &Cuts,
        ticks: &mut [u32],
        blocks: &mut [u32],
        face_links: &mut [u32],
        curve_links: &mut [u32],
        face_keys: &mut [u64],
        curve_keys: &mut [u64],
        face_rows: &mut [u32],
        curve_rows: &mut [u32],
        block: u32,
        m: &[u32],
    ) -> Result<Job, Refusal>
        ensures { AnyTables (λ t. CallStep
            (state_by self.job cuts.now
            (enrol_lent t ticks.old blocks.old face_links.old curve_links.old face_keys.old
            curve_keys.old face_rows.old curve_rows.old))
            (enrol block m.now) (answer (number_of result) 0 [])
            (state_by (job_after self.job result) cuts.now
            (enrol_lent t ticks.new blocks.new face_links.new curve_links.new face_keys.new
            curve_keys.new face_rows.new curve_rows.new))) }
    {
        enrol(
            self.job,
            cuts,
            ticks,
            blocks,
            face_links,
            curve_links,
            face_keys,
            curve_keys,
            face_rows,
            curve_rows,
            block,
            m,
        )
    }
}
