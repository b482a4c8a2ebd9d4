// The judge of a job's calls: the tests that come first, the lengths of what is lent, a block's map against the block table.
// Each call then has its own tests.
#![tactic(auto)]

ghost use Rattle.std.specs.Prelude.{◌≡◌, true, ◌&&◌, ◌+◌, ◌≤◌, eqb, leb, ltb, length};
ghost use Rattle.cells.specs.Extents.{Sized};
ghost use Rattle.cells.specs.Grid.{cells};
ghost use Rattle.cutting.specs.Cutting.{most_blocks};
ghost use Rattle.joiner.specs.Job.{Face, Curve, Point, lengths_fit};
ghost use Rattle.job.specs.JobState.{AnyCuts, stage_of, job_by, job_of};
ghost use Rattle.judge.specs.declared.CallName.{CallName};
ghost use Rattle.judge.specs.Judge.{entries_of, kind_lent, lent_by, stage_for, fits_lengths, map_judged, lengths_judged, judged_of, opened_of, reached_of, entry_of, stands_by, map_stands_in, links_stand_in, number_stands_in};
ghost use Rattle.refusals.specs.Refusals.{number_of};

use blocks::{Block, Cuts};
use counts::Counts;
use extents::{grid_cells, off_size};
use job::{Job, Stage, block_trays, entry_tray, found_trays, kind_trays, link_trays, row_tray};
use joiner::NUMBERS_PER_BLOCK;
use lists::read_or;
use pass_survey::survey_map;
use refusals::Refusal;
use stages::is_ticked;
use union_find::sound_ways;

// What the block table tells of a block: its largest numbers, and the places of its first face and first curve.
#[derive(Clone, Copy)]
pub struct Entry {
    pub faces: u32,
    pub curves: u32,
    pub points: u32,
    pub face_from: u32,
    pub curve_from: u32,
}

// The calls of a job by name.
#[derive(Clone, Copy)]
pub enum CallName {
    Open,
    Enrol,
    Seam,
    Crossing,
    Points,
    Lookup,
    Row,
}

// The lengths of the tables of one sort. One that a call is not lent has 0.
#[derive(Clone, Copy)]
pub struct KindLengths {
    pub faces: usize,
    pub curves: usize,
    pub points: usize,
}

// The lengths of the tables that a call is lent.
#[derive(Clone, Copy)]
pub struct Lengths {
    pub ticks: usize,
    pub blocks: usize,
    pub links: KindLengths,
    pub keys: KindLengths,
    pub rows: KindLengths,
    pub numbers: KindLengths,
    pub firsts: KindLengths,
    pub listed: KindLengths,
}

// The lengths of a call that is lent nothing. One that is lent some tables names their lengths, and takes the others from here.
pub const NO_KIND_LENGTHS: KindLengths = KindLengths {
    faces: 0,
    curves: 0,
    points: 0,
};

pub const NO_LENGTHS: Lengths = Lengths {
    ticks: 0,
    blocks: 0,
    links: NO_KIND_LENGTHS,
    keys: NO_KIND_LENGTHS,
    rows: NO_KIND_LENGTHS,
    numbers: NO_KIND_LENGTHS,
    firsts: NO_KIND_LENGTHS,
    listed: NO_KIND_LENGTHS,
};

// ---- the tests that come first

// The refusals up to 3: off size, bad cut, wrong stage.
#[tactic(auto, using(job::proofs::JobLaws::same_derived), unfolding(crate::specs::Judge::opened_of, refusals::specs::Refusals::number))]
pub fn opened(job: Job, cuts: &Cuts, stage: Stage) -> Result<(), Refusal>
    ensures { number_of result ≡ opened_of (job_by job cuts.now) (stage_of stage) }
{
    let e = job.extents();
    if off_size(1024, e) {
        return Err(Refusal::OffSize);
    }
    if !cuts.good_cut(e) {
        return Err(Refusal::BadCut);
    }
    if job.stage != stage {
        return Err(Refusal::WrongStage);
    }
    Ok(())
}

// The refusals up to 5 of a step of one block: no such block, done already.
pub fn reached(
    job: Job,
    cuts: &Cuts,
    ticks: &[u32],
    stage: Stage,
    b: u32,
    step: usize,
) -> Result<(), Refusal>
    ensures { number_of result ≡ reached_of (job_by job cuts.now) (stage_of stage) ticks.now b step }
{
    opened(job, cuts, stage)?;
    if !cuts.has_block(b) {
        return Err(Refusal::NoSuchPlace);
    }
    if is_ticked(ticks, step) {
        return Err(Refusal::DoneAlready);
    }
    Ok(())
}

// ---- the lengths of what is lent

// Whether all tables of one kind have the stated lengths: those of faces.
fn faces_fit(job: Job, z: Lengths) -> bool
    ensures { result ≡ lengths_fit (kind_lent Face (entries_of job) z) }
{
    kind_trays(
        2,
        job.entries.faces,
        z.keys.faces,
        z.rows.faces,
        z.numbers.faces,
        z.firsts.faces,
        z.listed.faces,
    )
}

// .. of curves.
fn curves_fit(job: Job, z: Lengths) -> bool
    ensures { result ≡ lengths_fit (kind_lent Curve (entries_of job) z) }
{
    kind_trays(
        4,
        job.entries.curves,
        z.keys.curves,
        z.rows.curves,
        z.numbers.curves,
        z.firsts.curves,
        z.listed.curves,
    )
}

// .. of points.
fn points_fit(job: Job, z: Lengths) -> bool
    ensures { result ≡ lengths_fit (kind_lent Point (entries_of job) z) }
{
    kind_trays(
        6,
        job.entries.points,
        z.keys.points,
        z.rows.points,
        z.numbers.points,
        z.firsts.points,
        z.listed.points,
    )
}

// Whether the tables that a call is lent have the stated lengths: those of a seam.
#[tactic(auto, using(job::proofs::JobLaws::fits_append), unfolding(joiner::specs::Job::lengths_fit))]
fn seam_lent(count: usize, job: Job, z: Lengths) -> bool
    requires { count ≤ most_blocks }
    ensures { result ≡ lengths_fit (lent_by CallName.Seam count (entries_of job) z) }
{
    block_trays(count, z.ticks, z.blocks)
        && link_trays(
            job.entries.faces,
            job.entries.curves,
            z.links.faces,
            z.links.curves,
        )
}

// .. of an enrolment.
#[tactic(auto, using(job::proofs::JobLaws::fits_append), unfolding(joiner::specs::Job::lengths_fit))]
fn enrol_lent(count: usize, job: Job, z: Lengths) -> bool
    requires { count ≤ most_blocks }
    ensures { result ≡ lengths_fit (lent_by CallName.Enrol count (entries_of job) z) }
{
    seam_lent(count, job, z)
        && found_trays(2, job.entries.faces, z.keys.faces, z.rows.faces)
        && found_trays(4, job.entries.curves, z.keys.curves, z.rows.curves)
}

// .. of a crossing.
#[tactic(auto, using(job::proofs::JobLaws::fits_append), unfolding(joiner::specs::Job::lengths_fit))]
fn crossing_lent(count: usize, job: Job, z: Lengths) -> bool
    requires { count ≤ most_blocks }
    ensures { result ≡ lengths_fit (lent_by CallName.Crossing count (entries_of job) z) }
{
    seam_lent(count, job, z) && faces_fit(job, z) && curves_fit(job, z)
}

// .. of a point step.
#[tactic(auto, using(job::proofs::JobLaws::fits_append), unfolding(joiner::specs::Job::lengths_fit))]
fn points_lent(count: usize, job: Job, z: Lengths) -> bool
    requires { count ≤ most_blocks }
    ensures { result ≡ lengths_fit (lent_by CallName.Points count (entries_of job) z) }
{
    block_trays(count, z.ticks, z.blocks)
        && entry_tray(job.entries.curves, z.numbers.curves)
        && points_fit(job, z)
}

// .. of a lookup.
#[tactic(auto, using(job::proofs::JobLaws::fits_append), unfolding(joiner::specs::Job::lengths_fit))]
fn lookup_lent(count: usize, job: Job, z: Lengths) -> bool
    requires { count ≤ most_blocks }
    ensures { result ≡ lengths_fit (lent_by CallName.Lookup count (entries_of job) z) }
{
    block_trays(count, z.ticks, z.blocks)
        && entry_tray(job.entries.faces, z.numbers.faces)
        && entry_tray(job.entries.curves, z.numbers.curves)
        && entry_tray(job.entries.points, z.firsts.points)
}

// .. of a row reading, which is lent no table of blocks.
#[tactic(auto, using(job::proofs::JobLaws::fits_append), unfolding(joiner::specs::Job::lengths_fit))]
fn row_lent(count: usize, job: Job, z: Lengths) -> bool
    ensures { result ≡ lengths_fit (lent_by CallName.Row count (entries_of job) z) }
{
    row_tray(2, job.entries.faces, z.listed.faces)
        && row_tray(4, job.entries.curves, z.listed.curves)
        && row_tray(6, job.entries.points, z.listed.points)
}

// .. of an opening, which is lent all.
#[tactic(auto, using(job::proofs::JobLaws::fits_append), unfolding(joiner::specs::Job::lengths_fit))]
fn open_lent(count: usize, job: Job, z: Lengths) -> bool
    requires { count ≤ most_blocks }
    ensures { result ≡ lengths_fit (lent_by CallName.Open count (entries_of job) z) }
{
    crossing_lent(count, job, z) && points_fit(job, z)
}

// .. of any call, of a job of so many blocks. Not an entry.
pub fn lent_fits(call: CallName, count: usize, job: Job, z: Lengths) -> bool
    requires { count ≤ most_blocks }
    ensures { result ≡ lengths_fit (lent_by call count (entries_of job) z) }
{
    match call {
        CallName::Open => open_lent(count, job, z),
        CallName::Enrol => enrol_lent(count, job, z),
        CallName::Seam => seam_lent(count, job, z),
        CallName::Crossing => crossing_lent(count, job, z),
        CallName::Points => points_lent(count, job, z),
        CallName::Lookup => lookup_lent(count, job, z),
        CallName::Row => row_lent(count, job, z),
    }
}

// ---- a block's map and its entry

// Whether a map of this length is one of the block. Not an entry.
pub fn map_fits(block: Block, length: usize) -> bool
    requires { Sized 64 block.size }
    ensures { result ≡ eqb length (cells block.size) }
{
    length == grid_cells(block.size)
}

// What the block table tells of block b.
#[tactic(auto, unfolding(crate::specs::Judge::entry_of))]
pub fn entry_of(table: &[u32], b: u32) -> Entry
    ensures { result ≡ entry_of table.now b }
{
    let i = NUMBERS_PER_BLOCK * b as usize;
    Entry {
        faces: read_or(table, i, 0),
        curves: read_or(table, i + 1, 0),
        points: read_or(table, i + 2, 0),
        face_from: read_or(table, i + 3, 0),
        curve_from: read_or(table, i + 4, 0),
    }
}

// Whether so many components from a place on stand in a table of so many entries.
fn inside(from: u32, count: u32, entries: u32) -> bool
    ensures { result ≡ leb (from + count) entries }
{
    u64::from(from) + u64::from(count) <= u64::from(entries)
}

// Whether a surveyed map keeps to its block's entry, and the entry to the tables of faces and curves.
#[tactic(auto, unfolding(crate::specs::Judge::stands_by))]
fn stands(s: Counts, entry: Entry, faces: u32, curves: u32) -> bool
    ensures { result ≡ stands_by s.faces s.curves s.points entry faces curves }
{
    s.faces <= entry.faces
        && s.curves <= entry.curves
        && s.points <= entry.points
        && inside(entry.face_from, entry.faces, faces)
        && inside(entry.curve_from, entry.curves, curves)
}

// Whether a map keeps to its block's entry, and the entry to tables of so many faces and curves. Not an entry.
#[tactic(auto, unfolding(crate::specs::Judge::map_stands_in))]
pub fn map_stands(map: &[u32], block: Block, entry: Entry, faces: u32, curves: u32) -> bool
    requires { Sized 64 block.size × (length map.now ≡ cells block.size) }
    ensures { result ≡ map_stands_in block.size entry faces curves map.now }
{
    stands(survey_map(map, block.size), entry, faces, curves)
}

// Whether the links of the block's faces and curves may be followed: none that is looked at is longer than its place.
#[tactic(auto, unfolding(crate::specs::Judge::links_stand_in))]
pub fn links_stand(face_links: &[u32], curve_links: &[u32], entry: Entry) -> bool
    ensures { result ≡ links_stand_in entry face_links.now curve_links.now }
{
    sound_ways(face_links, entry.face_from, entry.faces)
        && sound_ways(curve_links, entry.curve_from, entry.curves)
}

// Whether a closed table of so many components has one of this number.
pub fn has_number(number: u32, most: u32) -> bool
    ensures { result ≡ (ltb 0 number && leb number most) }
{
    0 < number && number <= most
}

// Whether the final number at a place is one of the closed table's: 1 to the numbered count.
#[tactic(auto, unfolding(crate::specs::Judge::number_stands_in))]
pub fn number_stands(numbers: &[u32], most: u32, place: usize) -> bool
    ensures { result ≡ number_stands_in numbers.now most place }
{
    has_number(read_or(numbers, place, 0), most)
}

// ---- the judge of a call that brings a block's map

// The stage of a call.
fn stage_of(call: CallName) -> Stage
    ensures { stage_of result ≡ stage_for call }
{
    match call {
        CallName::Open | CallName::Enrol => Stage::Enrol,
        CallName::Seam => Stage::Seam,
        CallName::Crossing => Stage::Crossing,
        CallName::Points => Stage::Points,
        CallName::Lookup | CallName::Row => Stage::Closed,
    }
}

// 6: whether the map of so many cells and the tables have the stated lengths. Not an entry.
#[tactic(auto, unfolding(crate::specs::Judge::fits_lengths))]
pub fn fits(call: CallName, count: usize, block: Block, job: Job, z: Lengths, length: usize) -> bool
    requires { (count ≤ most_blocks) × Sized 64 block.size }
    ensures { result ≡ fits_lengths call count block.size (entries_of job) z length }
{
    map_fits(block, length) && lent_fits(call, count, job, z)
}

// The refusals 6 and 8 of a call with a map: `whole` tells whether what is lent has the stated lengths. Not an entry.
pub fn judge_map(
    job: Job,
    block: Block,
    entry: Entry,
    whole: bool,
    m: &[u32],
) -> Result<(), Refusal>
    requires { Sized 64 block.size × (whole ≡ true → length m.now ≡ cells block.size) }
    ensures { AnyCuts (λ cx cy cz. number_of result ≡ map_judged (job_of job cx cy cz) block.size entry whole m.now) }
{
    if !whole {
        return Err(Refusal::WrongTray);
    }
    if !job.tallies_fit() {
        return Err(Refusal::StrayLabel);
    }
    if !map_stands(m, block, entry, job.entries.faces, job.entries.curves) {
        return Err(Refusal::StrayLabel);
    }
    Ok(())
}

// The refusals up to 6 of a step of one block that brings a map of so many cells.
pub fn judge_lengths(
    job: Job,
    cuts: &Cuts,
    ticks: &[u32],
    call: CallName,
    z: Lengths,
    b: u32,
    step: usize,
    length: usize,
) -> Result<(), Refusal>
    ensures { number_of result ≡ lengths_judged (job_by job cuts.now) ticks.now call z b step length }
{
    reached(job, cuts, ticks, stage_of(call), b, step)?;
    let block = cuts.block_at(b as usize);
    let count = cuts.block_count();
    if !fits(call, count, block, job, z, length) {
        return Err(Refusal::WrongTray);
    }
    Ok(())
}

// The refusals up to 8 of a step of one block, as far as first tests, lengths, tallies, map and block table decide.
pub fn judge(
    job: Job,
    cuts: &Cuts,
    ticks: &[u32],
    table: &[u32],
    call: CallName,
    z: Lengths,
    b: u32,
    step: usize,
    m: &[u32],
) -> Result<(), Refusal>
    ensures { number_of result ≡ judged_of (job_by job cuts.now) ticks.now table.now call z b step m.now }
{
    reached(job, cuts, ticks, stage_of(call), b, step)?;
    let block = cuts.block_at(b as usize);
    let count = cuts.block_count();
    let whole = fits(call, count, block, job, z, m.len());
    judge_map(job, block, entry_of(table, b), whole, m)
}
