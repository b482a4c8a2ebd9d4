// The tests of an enrolment: the judge's up to the lengths, then the tallies, and whether the map's faces and curves have room.
#![tactic(auto)]

ghost use Rattle.std.specs.Prelude.{◌≡◌, ◌+◌, ◌≤◌, ltb};
ghost use Rattle.joiner.specs.Calls.{full};
ghost use Rattle.job.specs.JobState.{by_kind, AnyCuts, job_by, job_of};
ghost use Rattle.refusals.specs.Refusals.{number_of};
ghost use Rattle.judge_enrol.specs.Tests.{lent_lengths, late_of, Judged};

use blocks::Cuts;
use counts::Counts;
use job::Job;
use joiner::TICKS_PER_BLOCK;
use judge::{CallName, KindLengths, Lengths, NO_KIND_LENGTHS, NO_LENGTHS, judge_lengths};
use pass_survey::survey_map;
use refusals::Refusal;

// Whether with so many more a tally would exceed its table's entries.
fn overfull(entries: u32, sofar: u32, more: u32) -> bool
    ensures { result ≡ ltb entries (sofar + more) }
{
    u64::from(sofar) + u64::from(more) > u64::from(entries)
}

// Whether the faces or the curves would exceed their entries. No points are added.
fn full(job: Job, more: Counts) -> bool
    requires { job.sofar.points ≤ job.entries.points }
    ensures { result ≡ full (by_kind job.entries.faces job.entries.curves job.entries.points) (by_kind job.sofar.faces job.sofar.curves job.sofar.points) (by_kind more.faces more.curves 0) }
{
    overfull(job.entries.faces, job.sofar.faces, more.faces)
        || overfull(job.entries.curves, job.sofar.curves, more.curves)
}

// The refusals by the tallies and the map, whose largest numbers would be added.
fn late(job: Job, more: Counts) -> Result<(), Refusal>
    ensures { AnyCuts (λ cx cy cz. number_of result ≡ late_of (job_of job cx cy cz) (by_kind more.faces more.curves 0)) }
{
    if !job.tallies_fit() {
        return Err(Refusal::StrayLabel);
    }
    if full(job, more) {
        return Err(Refusal::TableFull);
    }
    Ok(())
}

// The refusal, the one of the lowest number that applies. Where there is none, the block's largest numbers.
pub fn judge_enrolment(
    job: Job,
    cuts: &Cuts,
    ticks: &[u32],
    lengths: Lengths,
    b: u32,
    m: &[u32],
) -> Result<Counts, Refusal>
    ensures { Judged (job_by job cuts.now) ticks.now lengths b m.now result }
{
    let step = TICKS_PER_BLOCK * b as usize;
    judge_lengths(job, cuts, ticks, CallName::Enrol, lengths, b, step, m.len())?;
    let block = cuts.block_at(b as usize);
    let survey = survey_map(m, block.size);
    late(job, survey)?;
    Ok(survey)
}

// The lengths of the tables that an enrolment is lent, 0 for the others.
pub fn lengths_of(
    ticks: usize,
    blocks: usize,
    face_links: usize,
    curve_links: usize,
    face_keys: usize,
    curve_keys: usize,
    face_rows: usize,
    curve_rows: usize,
) -> Lengths
    ensures { result ≡ lent_lengths ticks blocks face_links curve_links face_keys curve_keys face_rows curve_rows }
{
    Lengths {
        ticks,
        blocks,
        links: KindLengths {
            faces: face_links,
            curves: curve_links,
            ..NO_KIND_LENGTHS
        },
        keys: KindLengths {
            faces: face_keys,
            curves: curve_keys,
            ..NO_KIND_LENGTHS
        },
        rows: KindLengths {
            faces: face_rows,
            curves: curve_rows,
            ..NO_KIND_LENGTHS
        },
        ..NO_LENGTHS
    }
}
