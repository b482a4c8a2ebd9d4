ghost use Rattle.std.specs.Prelude.{[]};
ghost use Rattle.joiner.specs.Calls.{cross, answer};
ghost use Rattle.joiner.specs.Outcomes.{CallStep};
ghost use Rattle.job.specs.JobState.{state_by, job_after, AnyTables};
ghost use Rattle.refusals.specs.Refusals.{number_of};
ghost use Rattle.job.specs.Lent.{cross_lent};

use crate::Joining;
use blocks::Cuts;
use job::Job;
use refusals::Refusal;
use step_cross::crossing;

impl Joining {
    // Joins the curves of a block at its point cells; the last one numbers faces and curves.
    pub fn crossing(
        self,
        cuts: &Cuts,
        ticks: &mut [u32],
        blocks: &[u32],
        face_links: &mut [u32],
        curve_links: &mut [u32],
        face_keys: &[u64],
        curve_keys: &[u64],
        face_rows: &[u32],
        curve_rows: &[u32],
        face_numbers: &mut [u32],
        curve_numbers: &mut [u32],
        face_firsts: &mut [u64],
        curve_firsts: &mut [u64],
        face_listed: &mut [u32],
        curve_listed: &mut [u32],
        block: u32,
        m: &[u32],
    ) -> Result<Job, Refusal>
        ensures { AnyTables (λ t. CallStep
            (state_by self.job cuts.now
            (cross_lent t ticks.old blocks.now face_links.old curve_links.old face_keys.now
            curve_keys.now face_rows.now curve_rows.now face_numbers.old curve_numbers.old
            face_firsts.old curve_firsts.old face_listed.old curve_listed.old))
            (cross block m.now) (answer (number_of result) 0 [])
            (state_by (job_after self.job result) cuts.now
            (cross_lent t ticks.new blocks.now face_links.new curve_links.new face_keys.now
            curve_keys.now face_rows.now curve_rows.now face_numbers.new curve_numbers.new
            face_firsts.new curve_firsts.new face_listed.new curve_listed.new))) }
    {
        crossing(
            self.job,
            cuts,
            ticks,
            blocks,
            face_links,
            curve_links,
            face_keys,
            curve_keys,
            face_rows,
            curve_rows,
            face_numbers,
            curve_numbers,
            face_firsts,
            curve_firsts,
            face_listed,
            curve_listed,
            block,
            m,
        )
    }
}
