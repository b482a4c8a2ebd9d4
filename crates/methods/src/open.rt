ghost use Rattle.job.specs.JobState.{told_by, tables_of, state_by};
ghost use Rattle.refusals.specs.Refusals.{number_of};
ghost use Rattle.step_open.specs.Inner.{job_opened};
ghost use Rattle.strain_calls.specs.Tables.{total_tables};
ghost use Rattle.strain_calls.specs.Outcomes.{TotalsOpening};

use crate::Joining;
use blocks::Cuts;
use counts::Counts;
use job::Job;
use refusals::Refusal;
use step_open::open;

impl Joining {
    // Opens a job.
    pub fn open(
        nx: u32,
        ny: u32,
        nz: u32,
        cuts: &Cuts,
        entries: Counts,
        ticks: &mut [u32],
        blocks: &[u32],
        face_links: &[u32],
        curve_links: &[u32],
        face_keys: &[u64],
        curve_keys: &[u64],
        point_keys: &[u64],
        face_rows: &[u32],
        curve_rows: &[u32],
        point_rows: &[u32],
        face_numbers: &[u32],
        curve_numbers: &[u32],
        point_numbers: &[u32],
        face_firsts: &[u64],
        curve_firsts: &[u64],
        point_firsts: &[u64],
        face_listed: &[u32],
        curve_listed: &[u32],
        point_listed: &[u32],
        came: &mut [u32],
        face_sums: &mut [f64],
        face_counts: &mut [u64],
    ) -> Result<Job, Refusal>
        ensures { TotalsOpening
            (told_by nx ny nz cuts.now.x.now cuts.now.y.now cuts.now.z.now entries.faces entries.curves entries.points)
            (tables_of ticks.old blocks.now face_links.now curve_links.now
            face_keys.now curve_keys.now point_keys.now face_rows.now curve_rows.now point_rows.now
            face_numbers.now curve_numbers.now point_numbers.now face_firsts.now curve_firsts.now point_firsts.now
            face_listed.now curve_listed.now point_listed.now)
            (total_tables came.old face_sums.old face_counts.old)
            (number_of result)
            (state_by (job_opened result) cuts.now
            (tables_of ticks.new blocks.now face_links.now curve_links.now
            face_keys.now curve_keys.now point_keys.now face_rows.now curve_rows.now point_rows.now
            face_numbers.now curve_numbers.now point_numbers.now face_firsts.now curve_firsts.now point_firsts.now
            face_listed.now curve_listed.now point_listed.now))
            (total_tables came.new face_sums.new face_counts.new) }
    {
        open(
            nx,
            ny,
            nz,
            cuts,
            entries,
            ticks,
            blocks,
            face_links,
            curve_links,
            face_keys,
            curve_keys,
            point_keys,
            face_rows,
            curve_rows,
            point_rows,
            face_numbers,
            curve_numbers,
            point_numbers,
            face_firsts,
            curve_firsts,
            point_firsts,
            face_listed,
            curve_listed,
            point_listed,
            came,
            face_sums,
            face_counts,
        )
    }
}
