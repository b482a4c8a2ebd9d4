// The reading of a total: both sides of a face of a closed job, once the readings of all blocks have come.
#![tactic(auto)]

ghost use Rattle.std.specs.Prelude.{◌≡◌, ◌≤◌, ◌<◌};
ghost use Rattle.lists.specs.Lists.{consecutive, all_of};
ghost use Rattle.cells.specs.Box.{triple};
ghost use Rattle.cells.specs.Extents.{Sized};
ghost use Rattle.joiner.specs.Job.{Tables};
ghost use Rattle.stages.specs.Ticks.{ticked_in};
ghost use Rattle.job.specs.JobState.{AnyCuts, job_of, job_by, state_by};
ghost use Rattle.refusals.specs.Refusals.{number_of};
ghost use Rattle.totals.specs.Totals.{Holds};
ghost use Rattle.strain_calls.specs.Tables.{total_tables};
ghost use Rattle.strain_calls.specs.Calls.{total, strain_answer};
ghost use Rattle.strain_calls.specs.Outcomes.{StrainStep};
ghost use Rattle.reading_total.specs.Inner.{stand_in, refusal_of, totals_read};

use blocks::Cuts;
use extents::grid_cells;
use job::{Job, Stage, total_trays};
use judge::{has_number, opened};
use refusals::Refusal;
use stages::is_ticked;
use totals::{Totals, both_stand, totals_of};

// ---- what is declined

// Whether the readings of each of so many blocks have come.
fn all_came(came: &[u32], count: usize) -> bool
    ensures { result ≡ all_of (ticked_in came.now) (consecutive 0 count) }
{
    (0..count).all(|b| is_ticked(came, b))
}

// Whether the tallies fit, and the total of a face stands.
#[tactic(auto, unfolding(crate::specs::Inner::stand_in))]
fn stand(job: Job, face_sums: &[f64], face_counts: &[u64], number: u32) -> bool
    requires { Sized 1024 (triple job.nx job.ny job.nz) × (0 < number) × (number ≤ job.numbered.faces) × Holds face_sums.now face_counts.now job.entries.faces }
    ensures { AnyCuts (λ cx cy cz. result ≡ stand_in (job_of job cx cy cz) face_sums.now face_counts.now number) }
{
    job.tallies_fit()
        && both_stand(
            grid_cells(job.extents()) as u64,
            face_sums,
            face_counts,
            number,
        )
}

// The refusal, that of the lowest number that applies.
fn refuse(
    job: Job,
    cuts: &Cuts,
    came: &[u32],
    face_sums: &[f64],
    face_counts: &[u64],
    number: u32,
) -> Result<(), Refusal>
    ensures { number_of result ≡ refusal_of (job_by job cuts.now)
        (total_tables came.now face_sums.now face_counts.now) number }
{
    opened(job, cuts, Stage::Closed)?;
    let count = cuts.block_count();
    if !all_came(came, count) {
        return Err(Refusal::WrongStage);
    }
    if !has_number(number, job.numbered.faces) {
        return Err(Refusal::NoSuchPlace);
    }
    if !total_trays(
        count,
        job.entries.faces,
        came.len(),
        face_sums.len(),
        face_counts.len(),
    ) {
        return Err(Refusal::WrongTray);
    }
    if !stand(job, face_sums, face_counts, number) {
        return Err(Refusal::StrayLabel);
    }
    Ok(())
}

// ---- the reading

// The totals of a face, with the sum of strains and the numbers of strains, clipped and missing on either side.
pub fn total(
    job: Job,
    cuts: &Cuts,
    came: &[u32],
    face_sums: &[f64],
    face_counts: &[u64],
    number: u32,
) -> Result<Totals, Refusal>
    ensures { (t : Tables) → StrainStep (state_by job cuts.now t)
        (total_tables came.now face_sums.now face_counts.now)
        (total number) (strain_answer (number_of result) (totals_read result))
        (total_tables came.now face_sums.now face_counts.now) }
{
    refuse(job, cuts, came, face_sums, face_counts, number)?;
    let cells = grid_cells(job.extents()) as u64;
    Ok(totals_of(cells, face_sums, face_counts, number))
}
