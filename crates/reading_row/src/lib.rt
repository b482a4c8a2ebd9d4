// The row reading of a closed job: the row of one face, curve or point, as a part of the lent table of its kind.
#![tactic(auto)]

ghost use Rattle.std.specs.Prelude.{◌≡◌, ◌-◌, ◌*◌, ◌≤◌, ◌<◌, length, take, drop};
ghost use Rattle.joiner.specs.Calls.{reading, answer};
ghost use Rattle.joiner.specs.Outcomes.{CallStep};
ghost use Rattle.job.specs.JobState.{AnyCuts, numbered_tally, state_of};
ghost use Rattle.reading_row.specs.Inner.{kind_of, lent, refusal_of, HasRow, row_in, part_of};
ghost use Rattle.refusals.specs.Refusals.{number_of};

use extents::off_size;
use job::{Job, Stage};
use judge::{CallName, KindLengths, Lengths, NO_LENGTHS, has_number, lent_fits};
use refusals::Refusal;

// What the tables hold.
#[derive(Clone, Copy)]
pub enum Kind {
    Face,
    Curve,
    Point,
}

// How many of a kind are numbered.
fn numbered(job: Job, kind: Kind) -> u32
    ensures { result ≡ numbered_tally job (kind_of kind) }
{
    match kind {
        Kind::Face => job.numbered.faces,
        Kind::Curve => job.numbered.curves,
        Kind::Point => job.numbered.points,
    }
}

// The refusal, that of the lowest number that applies.
#[tactic(auto, using(job::proofs::JobLaws::same_derived), unfolding(crate::specs::Inner::refusal_of, refusals::specs::Refusals::number))]
fn refuse(job: Job, kind: Kind, number: u32, lengths: Lengths) -> Result<(), Refusal>
    ensures { number_of result ≡ refusal_of job kind number lengths }
{
    if off_size(1024, job.extents()) {
        return Err(Refusal::OffSize);
    }
    if job.stage != Stage::Closed {
        return Err(Refusal::WrongStage);
    }
    if !has_number(number, numbered(job, kind)) {
        return Err(Refusal::NoSuchPlace);
    }
    if !lent_fits(CallName::Row, 0, job, lengths) {
        return Err(Refusal::WrongTray);
    }
    if !job.tallies_fit() {
        return Err(Refusal::StrayLabel);
    }
    Ok(())
}

// Row `number`, counted from 1, of a table whose rows have `width` places.
fn row_of<'a>(rows: &'a [u32], width: u8, number: u32) -> &'a [u32]
    requires { (0 < number) × (width * number ≤ length rows.now) }
    ensures { result.now ≡ take width (drop (width * (number - 1)) rows.now) }
{
    let w = usize::from(width);
    let a = w * (number as usize - 1);
    let e = a + w;
    &rows[a..e]
}

// The row of a component: a part of the table of its kind.
fn part<'a>(
    kind: Kind,
    number: u32,
    face_listed: &'a [u32],
    curve_listed: &'a [u32],
    point_listed: &'a [u32],
) -> &'a [u32]
    requires { HasRow kind number face_listed.now curve_listed.now point_listed.now }
    ensures { result.now ≡ row_in kind number face_listed.now curve_listed.now point_listed.now }
{
    match kind {
        Kind::Face => row_of(face_listed, 2, number),
        Kind::Curve => row_of(curve_listed, 4, number),
        Kind::Point => row_of(point_listed, 6, number),
    }
}

// The row of one face, curve or point of a closed job: two, four or six places of the lent table of its kind.
pub fn row<'a>(
    job: Job,
    kind: Kind,
    number: u32,
    face_listed: &'a [u32],
    curve_listed: &'a [u32],
    point_listed: &'a [u32],
) -> Result<&'a [u32], Refusal>
    ensures { AnyCuts (λ cx cy cz. CallStep
        (state_of job cx cy cz (lent face_listed.now curve_listed.now point_listed.now))
        (reading (kind_of kind) number) (answer (number_of result) 0 (part_of result))
        (state_of job cx cy cz (lent face_listed.now curve_listed.now point_listed.now))) }
{
    let lengths = Lengths {
        listed: KindLengths {
            faces: face_listed.len(),
            curves: curve_listed.len(),
            points: point_listed.len(),
        },
        ..NO_LENGTHS
    };
    refuse(job, kind, number, lengths)?;
    Ok(part(kind, number, face_listed, curve_listed, point_listed))
}
