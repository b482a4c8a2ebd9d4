// The opening of a job.
#![tactic(auto)]

ghost use Rattle.std.specs.Prelude.{◌≡◌, ◌≤◌, length};
ghost use Rattle.lists.specs.Lists.{zeros};
ghost use Rattle.cutting.specs.Cutting.{most_blocks};
ghost use Rattle.job.specs.JobState.{told_by, job_by, tables_of, state_by};
ghost use Rattle.judge.specs.Judge.{entries_of};
ghost use Rattle.refusals.specs.Refusals.{number_of};
ghost use Rattle.strain_calls.specs.Tables.{total_tables, zeroed};
ghost use Rattle.strain_calls.specs.Outcomes.{TotalsOpening};
ghost use Rattle.step_open.specs.Inner.{tables_fit, refusal_of, kinds_of, job_opened};

use blocks::Cuts;
use counts::Counts;
use extents::off_size;
use job::{Job, total_trays};
use judge::{CallName, KindLengths, Lengths, lent_fits};
use refusals::Refusal;
use union_find::clear;
use zeroing::{clear_counts, clear_sums};

// The lengths of the tables of one sort.
fn kinds(faces: usize, curves: usize, points: usize) -> KindLengths
    ensures { result ≡ kinds_of faces curves points }
{
    KindLengths {
        faces,
        curves,
        points,
    }
}

// Whether every table has the stated length, those of the readings too.
#[tactic(auto, unfolding(crate::specs::Inner::tables_fit))]
fn tables_fit(
    blocks: usize,
    job: Job,
    lengths: Lengths,
    came: usize,
    sums: usize,
    counts: usize,
) -> bool
    requires { blocks ≤ most_blocks }
    ensures { result ≡ tables_fit blocks (entries_of job) lengths came sums counts }
{
    lent_fits(CallName::Open, blocks, job, lengths)
        && total_trays(blocks, job.entries.faces, came, sums, counts)
}

// The refusal of an opening that would make this job, the one of the lowest number that applies.
fn refusal(
    job: Job,
    cuts: &Cuts,
    lengths: Lengths,
    came: usize,
    sums: usize,
    counts: usize,
) -> Result<(), Refusal>
    ensures { number_of result ≡ refusal_of (job_by job cuts.now).told lengths came sums counts }
{
    let e = job.extents();
    if off_size(1024, e) {
        return Err(Refusal::OffSize);
    }
    if !cuts.good_cut(e) {
        return Err(Refusal::BadCut);
    }
    let blocks = cuts.block_count();
    if !tables_fit(blocks, job, lengths, came, sums, counts) {
        return Err(Refusal::WrongTray);
    }
    Ok(())
}

// No step is ticked, no readings have come, and the totals are zero.
#[tactic(auto, using(crate::proofs::DoneLaws::all_cleared))]
fn clear_all(ticks: &mut [u32], came: &mut [u32], face_sums: &mut [f64], face_counts: &mut [u64])
    ensures { (ticks.new ≡ zeros (length ticks.old)) ×
        (total_tables came.new face_sums.new face_counts.new
        ≡ zeroed (total_tables came.old face_sums.old face_counts.old)) }
{
    clear(ticks);
    clear(came);
    clear_sums(face_sums);
    clear_counts(face_counts);
}

// Opens a job: the volume's extents, the cut lists, the entries of each table, and the tables. An accepted opening leaves no step ticked
// and zeroes the totals; the other tables stay as they are.
// Kept: extents and tables one by one, as the C interface hands them on.
pub fn open(
    nx: u32,
    ny: u32,
    nz: u32,
    cuts: &Cuts,
    entries: Counts,
    ticks: &mut [u32],
    blocks: &[u32],
    face_links: &[u32],
    curve_links: &[u32],
    face_keys: &[u64],
    curve_keys: &[u64],
    point_keys: &[u64],
    face_rows: &[u32],
    curve_rows: &[u32],
    point_rows: &[u32],
    face_numbers: &[u32],
    curve_numbers: &[u32],
    point_numbers: &[u32],
    face_firsts: &[u64],
    curve_firsts: &[u64],
    point_firsts: &[u64],
    face_listed: &[u32],
    curve_listed: &[u32],
    point_listed: &[u32],
    came: &mut [u32],
    face_sums: &mut [f64],
    face_counts: &mut [u64],
) -> Result<Job, Refusal>
    ensures { TotalsOpening
        (told_by nx ny nz cuts.now.x.now cuts.now.y.now cuts.now.z.now entries.faces entries.curves entries.points)
        (tables_of ticks.old blocks.now face_links.now curve_links.now
        face_keys.now curve_keys.now point_keys.now face_rows.now curve_rows.now point_rows.now
        face_numbers.now curve_numbers.now point_numbers.now face_firsts.now curve_firsts.now point_firsts.now
        face_listed.now curve_listed.now point_listed.now)
        (total_tables came.old face_sums.old face_counts.old)
        (number_of result)
        (state_by (job_opened result) cuts.now
        (tables_of ticks.new blocks.now face_links.now curve_links.now
        face_keys.now curve_keys.now point_keys.now face_rows.now curve_rows.now point_rows.now
        face_numbers.now curve_numbers.now point_numbers.now face_firsts.now curve_firsts.now point_firsts.now
        face_listed.now curve_listed.now point_listed.now))
        (total_tables came.new face_sums.new face_counts.new) }
{
    let lengths = Lengths {
        ticks: ticks.len(),
        blocks: blocks.len(),
        links: kinds(face_links.len(), curve_links.len(), 0),
        keys: kinds(face_keys.len(), curve_keys.len(), point_keys.len()),
        rows: kinds(face_rows.len(), curve_rows.len(), point_rows.len()),
        numbers: kinds(face_numbers.len(), curve_numbers.len(), point_numbers.len()),
        firsts: kinds(face_firsts.len(), curve_firsts.len(), point_firsts.len()),
        listed: kinds(face_listed.len(), curve_listed.len(), point_listed.len()),
    };
    let job = Job::fresh(nx, ny, nz, entries);
    let (sums, counts) = (face_sums.len(), face_counts.len());
    refusal(job, cuts, lengths, came.len(), sums, counts)?;
    clear_all(ticks, came, face_sums, face_counts);
    Ok(job)
}
