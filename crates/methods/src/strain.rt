ghost use Rattle.job.specs.JobState.{job_by};
ghost use Rattle.refusals.specs.Refusals.{number_of};
ghost use Rattle.strain_calls.specs.Tables.{total_tables};
ghost use Rattle.strain_calls.specs.Outcomes.{StrainPromise};

use crate::Joining;
use blocks::Cuts;
use refusals::Refusal;
use step_strain::strain;

impl Joining {
    // Adds the readings of a block of a closed job to the totals of its faces. The job stays as it was.
    pub fn strain(
        self,
        cuts: &Cuts,
        blocks: &[u32],
        face_numbers: &[u32],
        came: &mut [u32],
        face_sums: &mut [f64],
        face_counts: &mut [u64],
        block: u32,
        m: &[u32],
        values: &[f64],
        kinds: &[u8],
    ) -> Result<(), Refusal>
        ensures { StrainPromise (job_by self.job cuts.now)
            blocks.now face_numbers.now
            (total_tables came.old face_sums.old face_counts.old)
            block m.now values.now kinds.now (number_of result)
            (total_tables came.new face_sums.new face_counts.new) }
    {
        strain(
            self.job,
            cuts,
            blocks,
            face_numbers,
            came,
            face_sums,
            face_counts,
            block,
            m,
            values,
            kinds,
        )
    }
}
