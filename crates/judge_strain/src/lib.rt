// The tests of the readings' step: the first ones, the lengths, the map and the totals of the block's faces, the readings.
#![tactic(auto)]

ghost use Rattle.std.specs.Prelude.{◌≡◌, ◌≤◌, length};
ghost use Rattle.cells.specs.Box.{triple};
ghost use Rattle.cells.specs.Extents.{Sized};
ghost use Rattle.cells.specs.Grid.{cells};
ghost use Rattle.cutting.specs.Cutting.{most_blocks};
ghost use Rattle.job.specs.JobState.{AnyCuts, job_of, job_by};
ghost use Rattle.refusals.specs.Refusals.{number_of};
ghost use Rattle.totals.specs.Totals.{Holds};
ghost use Rattle.pass_strain.specs.BlockReadings.{Whole};
ghost use Rattle.judge_strain.specs.Tests.{totals_in, lengths_of, lists_in, trays_fit, face_in, faces_in, stand_in, late_of, refusal_of};

use blocks::{Block, Cuts};
use extents::grid_cells;
use job::{Job, Stage, entry_tray, row_tray, total_trays};
use judge::{Entry, entry_of, map_fits, map_stands, number_stands, reached};
use lists::read_or;
use refusals::Refusal;
use totals::{both_stand, readings_fit};

// The tables that the step is lent: the block table, the final numbers of faces, the blocks whose readings have come, and the totals.
#[derive(Clone, Copy)]
pub struct StrainTables<'a> {
    pub blocks: &'a [u32],
    pub numbers: &'a [u32],
    pub came: &'a [u32],
    pub sums: &'a [f64],
    pub counts: &'a [u64],
}

// What a block brings: its map, and a value and a kind byte for each voxel.
// Kept: values and kinds are two lists, as the C interface (`tugrelis_strain`) lends them.
#[derive(Clone, Copy)]
pub struct Brought<'a> {
    pub map: &'a [u32],
    pub values: &'a [f64],
    pub kinds: &'a [u8],
}

// Whether the map and the lists are those of the block, by their lengths.
#[tactic(auto, using(cells::proofs::ExtentLaws::area_high, cells::proofs::ExtentLaws::volume_high), unfolding(crate::specs::Tests::lists_in, cells::specs::Box::volume))]
fn lists_fit(block: Block, brought: &Brought) -> bool
    requires { Sized 64 block.size }
    ensures { result ≡ lists_in block.size (length brought.now.map.now) (length brought.now.values.now) (length brought.now.kinds.now) }
{
    let e = block.size;
    let voxels = e.x * e.y * e.z;
    map_fits(block, brought.map.len())
        && brought.values.len() == voxels
        && brought.kinds.len() == voxels
}

// Whether what the block brings and the tables have the stated lengths.
#[tactic(auto, unfolding(crate::specs::Tests::trays_fit))]
fn trays_fit(
    count: usize,
    block: Block,
    faces: u32,
    tables: &StrainTables,
    brought: &Brought,
) -> bool
    requires { (count ≤ most_blocks) × Sized 64 block.size }
    ensures { result ≡ trays_fit count block.size faces (lengths_of tables.now brought.now) }
{
    lists_fit(block, brought)
        && row_tray(5, count as u32, tables.blocks.len())
        && entry_tray(faces, tables.numbers.len())
        && total_trays(
            count,
            faces,
            tables.came.len(),
            tables.sums.len(),
            tables.counts.len(),
        )
}

// Whether the final number at a place is one of the closed table's, and the total of that face stands.
#[tactic(auto, using(crate::proofs::TestLaws::face_ready), unfolding(crate::specs::Tests::face_in))]
fn face_stands(tables: &StrainTables, most: u32, cells: u64, place: usize) -> bool
    requires { Holds tables.now.sums.now tables.now.counts.now most }
    ensures { result ≡ face_in tables.now.numbers.now most cells tables.now.sums.now tables.now.counts.now place }
{
    number_stands(tables.numbers, most, place)
        && both_stand(
            cells,
            tables.sums,
            tables.counts,
            read_or(tables.numbers, place, 0),
        )
}

// .. of each of the block's faces.
fn faces_stand(job: Job, entry: Entry, tables: &StrainTables) -> bool
    requires { Sized 1024 (triple job.nx job.ny job.nz) × Holds tables.now.sums.now tables.now.counts.now job.numbered.faces }
    ensures { result ≡ faces_in tables.now.numbers.now job.numbered.faces (cells (triple job.nx job.ny job.nz))
        tables.now.sums.now tables.now.counts.now entry.face_from entry.faces }
{
    let most = job.numbered.faces;
    let cells = grid_cells(job.extents()) as u64;
    let from = entry.face_from as usize;
    let to = from + entry.faces as usize;
    (from..to).all(|place| face_stands(tables, most, cells, place))
}

// Whether the tallies fit, the map keeps to its block's entry, and the block's faces have final numbers and totals that stand.
fn stand(job: Job, block: Block, entry: Entry, tables: &StrainTables, map: &[u32]) -> bool
    requires { Sized 64 block.size × (length map.now ≡ cells block.size) × Sized 1024 (triple job.nx job.ny job.nz)
        × Holds tables.now.sums.now tables.now.counts.now job.entries.faces }
    ensures { AnyCuts (λ cx cy cz. result ≡ stand_in (job_of job cx cy cz) block.size entry
        tables.now.numbers.now tables.now.sums.now tables.now.counts.now map.now) }
{
    job.tallies_fit()
        && map_stands(map, block, entry, job.entries.faces, job.entries.curves)
        && faces_stand(job, entry, tables)
}

// The refusals from 8 on: a label that does not stand, a reading that is none.
fn late(
    job: Job,
    block: Block,
    entry: Entry,
    tables: &StrainTables,
    brought: &Brought,
) -> Result<(), Refusal>
    requires { Whole block.size brought.now.map.now brought.now.values.now brought.now.kinds.now
        × Sized 1024 (triple job.nx job.ny job.nz) × Holds tables.now.sums.now tables.now.counts.now job.entries.faces }
    ensures { AnyCuts (λ cx cy cz. number_of result ≡ late_of (job_of job cx cy cz) block.size entry
        tables.now.numbers.now tables.now.sums.now tables.now.counts.now brought.now.map.now brought.now.values.now brought.now.kinds.now) }
{
    if !stand(job, block, entry, tables, brought.map) {
        return Err(Refusal::StrayLabel);
    }
    if !readings_fit(brought.values, brought.kinds) {
        return Err(Refusal::BadReading);
    }
    Ok(())
}

// The refusal of the step of block b, that of the lowest number that applies.
pub fn judge_readings(
    job: Job,
    cuts: &Cuts,
    tables: &StrainTables,
    b: u32,
    brought: &Brought,
) -> Result<(), Refusal>
    ensures { number_of result ≡ refusal_of (job_by job cuts.now) tables.now.blocks.now tables.now.numbers.now
        (totals_in tables.now) b brought.now.map.now brought.now.values.now brought.now.kinds.now }
{
    reached(job, cuts, tables.came, Stage::Closed, b, b as usize)?;
    let block = cuts.block_at(b as usize);
    let count = cuts.block_count();
    if !trays_fit(count, block, job.entries.faces, tables, brought) {
        return Err(Refusal::WrongTray);
    }
    let entry = entry_of(tables.blocks, b);
    late(job, block, entry, tables, brought)
}
