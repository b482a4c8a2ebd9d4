// A job as thirteen numbers, in which programs in other languages keep it: the stage by number, extents, entries, tallies, numbered.
#![tactic(auto)]

ghost use Rattle.std.specs.Prelude.{◌≡◌};
ghost use Rattle.job_numbers.specs.Numbers.{stage_in, job_in, numbers_of, kept_numbers, KeptAfter};

use counts::Counts;
use job::{Job, Stage};
use refusals::Refusal;

// The stage with this number, `other` where there is none.
#[tactic(auto, unfolding(crate::specs::Numbers::stage_in))]
fn stage_in(number: u32, other: Stage) -> Stage
    ensures { result ≡ stage_in number other }
{
    match number {
        0 => Stage::Enrol,
        1 => Stage::Seam,
        2 => Stage::Crossing,
        3 => Stage::Points,
        4 => Stage::Closed,
        _ => other,
    }
}

// The job that the numbers tell. A number that is no stage is read as `other`.
#[tactic(auto, unfolding(crate::specs::Numbers::job_in))]
pub fn job_in(numbers: &[u32; 13], other: Stage) -> Job
    ensures { result ≡ job_in numbers.now other }
{
    Job {
        stage: stage_in(numbers[0], other),
        nx: numbers[1],
        ny: numbers[2],
        nz: numbers[3],
        entries: Counts {
            faces: numbers[4],
            curves: numbers[5],
            points: numbers[6],
        },
        sofar: Counts {
            faces: numbers[7],
            curves: numbers[8],
            points: numbers[9],
        },
        numbered: Counts {
            faces: numbers[10],
            curves: numbers[11],
            points: numbers[12],
        },
    }
}

// The numbers of a job.
#[tactic(auto, unfolding(crate::specs::Numbers::numbers_of))]
pub fn numbers_of(job: Job) -> [u32; 13]
    ensures { result ≡ numbers_of job }
{
    [
        job.stage.number(),
        job.nx,
        job.ny,
        job.nz,
        job.entries.faces,
        job.entries.curves,
        job.entries.points,
        job.sofar.faces,
        job.sofar.curves,
        job.sofar.points,
        job.numbered.faces,
        job.numbered.curves,
        job.numbered.points,
    ]
}

// Stores the job that a call hands on, unless it was refused.
// Kept: a refusal by number beside the job, as `store_counts` (counts) takes one; `keep_answer` takes an answer.
#[tactic(auto, using(crate::proofs::NumberLaws::kept_new, crate::proofs::NumberLaws::kept_old))]
pub fn keep(numbers: &mut [u32; 13], refusal: u32, job: Job)
    ensures { numbers.new ≡ kept_numbers refusal numbers.old job }
{
    if refusal == 0 {
        *numbers = numbers_of(job);
    }
}

// Stores the job of an answer, unless it is a refusal.
pub fn keep_answer(numbers: &mut [u32; 13], answer: &Result<Job, Refusal>)
    ensures { KeptAfter numbers.old numbers.new answer.now }
{
    match answer {
        Ok(job) => keep(numbers, 0, *job),
        Err(refusal) => keep(numbers, u32::from(*refusal), Job::empty()),
    }
}
