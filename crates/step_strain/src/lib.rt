// The readings' step of a closed job: the readings of a block are added to the totals of its faces.
#![tactic(auto)]

ghost use Rattle.std.specs.Prelude.{◌≡◌};
ghost use Rattle.job.specs.JobState.{job_by};
ghost use Rattle.refusals.specs.Refusals.{number_of};
ghost use Rattle.strain_calls.specs.Tables.{total_tables};
ghost use Rattle.strain_calls.specs.Outcomes.{StrainPromise};
ghost use Rattle.step_strain.specs.Inner.{cutting_of, Ready, stored_in};

use blocks::Cuts;
use job::Job;
use judge::entry_of;
use judge_strain::{Brought, StrainTables, judge_readings};
use lowest::starts_of;
use pass_strain::sum_block;
use refusals::Refusal;

// The step, where it is not refused: the block's readings are added, and have come.
fn accept(
    job: Job,
    cuts: &Cuts,
    blocks: &[u32],
    face_numbers: &[u32],
    came: &mut [u32],
    face_sums: &mut [f64],
    face_counts: &mut [u64],
    block: u32,
    brought: &Brought,
)
    requires { Ready (cutting_of job cuts.now) came.old block brought.now.map.now brought.now.values.now brought.now.kinds.now }
    ensures { total_tables came.new face_sums.new face_counts.new
        ≡ stored_in (cutting_of job cuts.now) blocks.now face_numbers.now
        (total_tables came.old face_sums.old face_counts.old) block brought.now.map.now brought.now.values.now brought.now.kinds.now }
{
    let b = block as usize;
    let size = cuts.block_at(b).size;
    let starts = starts_of(cuts, b);
    let entry = entry_of(blocks, block);
    came[b] = 1;
    sum_block(
        face_sums,
        face_counts,
        brought.values,
        brought.kinds,
        brought.map,
        face_numbers,
        size,
        starts,
        entry.face_from,
    );
}

// Takes in the readings of a block: a value and a kind byte for each voxel. Everything is decided before the first store.
// Kept: each table and list apart, as the C interface (`tugrelis_strain`) lends it.
pub fn strain(
    job: Job,
    cuts: &Cuts,
    blocks: &[u32],
    face_numbers: &[u32],
    came: &mut [u32],
    face_sums: &mut [f64],
    face_counts: &mut [u64],
    block: u32,
    m: &[u32],
    values: &[f64],
    kinds: &[u8],
) -> Result<(), Refusal>
    ensures { StrainPromise (job_by job cuts.now) blocks.now face_numbers.now
        (total_tables came.old face_sums.old face_counts.old)
        block m.now values.now kinds.now (number_of result)
        (total_tables came.new face_sums.new face_counts.new) }
{
    let brought = Brought {
        map: m,
        values,
        kinds,
    };
    let tables = StrainTables {
        blocks,
        numbers: face_numbers,
        came,
        sums: face_sums,
        counts: face_counts,
    };
    judge_readings(job, cuts, &tables, block, &brought)?;
    accept(
        job,
        cuts,
        blocks,
        face_numbers,
        came,
        face_sums,
        face_counts,
        block,
        &brought,
    );
    Ok(())
}
