ghost use Rattle.job.specs.JobState.{job_by};
ghost use Rattle.reading_total.specs.Inner.{totals_read};
ghost use Rattle.refusals.specs.Refusals.{number_of};
ghost use Rattle.strain_calls.specs.Tables.{total_tables};
ghost use Rattle.strain_calls.specs.Outcomes.{TotalPromise};

use crate::Joining;
use blocks::Cuts;
use reading_total::total;
use refusals::Refusal;
use totals::Totals;

impl Joining {
    // The totals of a face of a closed job.
    pub fn total(
        self,
        cuts: &Cuts,
        came: &[u32],
        face_sums: &[f64],
        face_counts: &[u64],
        number: u32,
    ) -> Result<Totals, Refusal>
        ensures { TotalPromise (job_by self.job cuts.now)
            (total_tables came.now face_sums.now face_counts.now) number (number_of result) (totals_read result) }
    {
        total(self.job, cuts, came, face_sums, face_counts, number)
    }
}
