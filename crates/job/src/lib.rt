// The job of a joining: what the opening was told, the stage and the tallies. It is handed from step to step by value.
#![tactic(auto)]

ghost use Rattle.std.specs.Prelude.{◌≡◌, ◌&&◌, [], ◌∷◌, ◌*◌, ◌≤◌, eqb, leb};
ghost use Rattle.cells.specs.Box.{triple};
ghost use Rattle.cutting.specs.Cutting.{most_blocks};
ghost use Rattle.joiner.specs.Job.{stage_number, tray, lengths_fit};
ghost use Rattle.joiner.specs.Declines.{tallies_fit};
ghost use Rattle.job.specs.JobState.{stage_of, job_of, fresh_job, AnyCuts, NoJob, block_lengths, link_lengths, found_lengths, kind_lengths, total_lengths};

use cells::Triple;
use counts::Counts;
use joiner::{NUMBERS_PER_BLOCK, TICKS_PER_BLOCK};

// A job goes through stages, in this order. A stage's number counts from 0.
#[derive(Clone, Copy, Debug, PartialEq, Eq)]
pub enum Stage {
    Enrol,
    Seam,
    Crossing,
    Points,
    Closed,
}

impl Stage {
    // The stage by number.
    pub fn number(self) -> u32
        ensures { result ≡ stage_number (stage_of self) }
    {
        self as u32
    }
}

// The extents of the volume and the entries of each table, as the opening was told; enrolled faces and curves and found points; faces,
// curves and points once numbered.
#[derive(Clone, Copy)]
pub struct Job {
    pub stage: Stage,
    pub nx: u32,
    pub ny: u32,
    pub nz: u32,
    pub entries: Counts,
    pub sofar: Counts,
    pub numbered: Counts,
}

const NO_COUNTS: Counts = Counts {
    faces: 0,
    curves: 0,
    points: 0,
};

// Whether both tallies of a kind, what is enrolled or found and what is numbered, are at most its table's entries.
fn tally_fits(entries: u32, sofar: u32, numbered: u32) -> bool
    ensures { result ≡ (leb sofar entries && leb numbered entries) }
{
    sofar <= entries && numbered <= entries
}

impl Job {
    // A job in the first stage, its tallies 0.
    pub fn fresh(nx: u32, ny: u32, nz: u32, entries: Counts) -> Job
        ensures { result ≡ fresh_job nx ny nz entries }
    {
        Job {
            stage: Stage::Enrol,
            nx,
            ny,
            nz,
            entries,
            sofar: NO_COUNTS,
            numbered: NO_COUNTS,
        }
    }

    // The job of a refused opening: every field 0.
    pub fn empty() -> Job
        ensures { NoJob result }
    {
        Job::fresh(0, 0, 0, NO_COUNTS)
    }

    // The extents of the volume.
    pub fn extents(self) -> Triple
        ensures { result ≡ triple self.nx self.ny self.nz }
    {
        Triple {
            x: self.nx as usize,
            y: self.ny as usize,
            z: self.nz as usize,
        }
    }

    // Whether every tally fits.
    #[tactic(auto, unfolding(joiner::specs::Declines::tallies_fit, joiner::specs::Declines::tally_fits))]
    pub fn tallies_fit(self) -> bool
        ensures { AnyCuts (λ cx cy cz. result ≡ tallies_fit (job_of self cx cy cz)) }
    {
        let (most, sofar, numbered) = (self.entries, self.sofar, self.numbered);
        tally_fits(most.faces, sofar.faces, numbered.faces)
            && tally_fits(most.curves, sofar.curves, numbered.curves)
            && tally_fits(most.points, sofar.points, numbered.points)
    }
}

// ---- the lengths of tables

// Whether a length is the stated one.
fn has(length: usize, states: u64) -> bool
    ensures { result ≡ eqb length states }
{
    length as u64 == states
}

// The places of a table with a row for each entry.
fn places(width: u8, entries: u32) -> u64
    ensures { result ≡ width * entries }
{
    u64::from(width) * u64::from(entries)
}

// The lengths of the tables of blocks: ticks and numbers for each. Not an entry.
#[tactic(auto, unfolding(joiner::specs::Job::lengths_fit))]
pub fn block_trays(blocks: usize, ticks: usize, numbers: usize) -> bool
    requires { blocks ≤ most_blocks }
    ensures { result ≡ lengths_fit (block_lengths blocks ticks numbers) }
{
    ticks == TICKS_PER_BLOCK * blocks && numbers == NUMBERS_PER_BLOCK * blocks
}

// The length of a table with one place for each entry.
#[tactic(auto, unfolding(joiner::specs::Job::lengths_fit))]
pub fn entry_tray(entries: u32, length: usize) -> bool
    ensures { result ≡ lengths_fit (tray length entries ∷ []) }
{
    has(length, u64::from(entries))
}

// The length of a table with a row for each entry.
#[tactic(auto, unfolding(joiner::specs::Job::lengths_fit))]
pub fn row_tray(width: u8, entries: u32, length: usize) -> bool
    ensures { result ≡ lengths_fit (tray length (width * entries) ∷ []) }
{
    has(length, places(width, entries))
}

// The lengths of the links of faces and curves.
#[tactic(auto, unfolding(joiner::specs::Job::lengths_fit))]
pub fn link_trays(face_entries: u32, curve_entries: u32, faces: usize, curves: usize) -> bool
    ensures { result ≡ lengths_fit (link_lengths face_entries curve_entries faces curves) }
{
    entry_tray(face_entries, faces) && entry_tray(curve_entries, curves)
}

// The lengths of the keys and rows of one kind.
#[tactic(auto, unfolding(joiner::specs::Job::lengths_fit))]
pub fn found_trays(width: u8, entries: u32, keys: usize, rows: usize) -> bool
    ensures { result ≡ lengths_fit (found_lengths width entries keys rows) }
{
    entry_tray(entries, keys) && row_tray(width, entries, rows)
}

// The lengths of all tables of one kind.
#[tactic(auto, unfolding(joiner::specs::Job::lengths_fit))]
pub fn kind_trays(
    width: u8,
    entries: u32,
    keys: usize,
    rows: usize,
    numbers: usize,
    firsts: usize,
    listed: usize,
) -> bool
    ensures { result ≡ lengths_fit (kind_lengths width entries keys rows numbers firsts listed) }
{
    found_trays(width, entries, keys, rows)
        && entry_tray(entries, numbers)
        && entry_tray(entries, firsts)
        && row_tray(width, entries, listed)
}

// The lengths of the tables of readings: a tick for each block, two sums and six counts for each face entry.
#[tactic(auto, unfolding(joiner::specs::Job::lengths_fit))]
pub fn total_trays(blocks: usize, faces: u32, came: usize, sums: usize, counts: usize) -> bool
    ensures { result ≡ lengths_fit (total_lengths blocks faces came sums counts) }
{
    came == blocks && row_tray(2, faces, sums) && row_tray(6, faces, counts)
}
