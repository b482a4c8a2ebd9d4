// Which blocks are needed for a list of cells of a closed job.
#![tactic(auto)]

ghost use Rattle.std.specs.Prelude.{◌≡◌, ◌≤◌, length};
ghost use Rattle.lists.specs.Lists.{laid};
ghost use Rattle.cutting.specs.Cutting.{most_blocks};
ghost use Rattle.blocks.specs.Blocks.{AnyExtents};
ghost use Rattle.job.specs.JobState.{state_by, AnyTables};
ghost use Rattle.refusals.specs.Refusals.{number_of};
ghost use Rattle.cell_calls.specs.Cells.{cell_count};
ghost use Rattle.cell_calls.specs.Calls.{request, cell_answer, most_cells};
ghost use Rattle.cell_calls.specs.Declines.{cell_refusal};
ghost use Rattle.cell_calls.specs.Outcomes.{CellStep};
ghost use Rattle.judge_cells.specs.Tests.{AnyTray};
ghost use Rattle.reading_blocks.specs.Marks.{lists_of, count_of, marked_by, marked_blocks, Ready, SomeReady, Lists};

use blocks::Cuts;
use cutting::MOST_BLOCKS;
use job::{Job, Stage};
use judge::opened;
use judge_cells::{CellLists, lengths_one};
use lowest::lowest_block;
use refusals::Refusal;

// The refusal, that of the lowest number that applies, of a request with a tray of so many places.
fn refuse(job: Job, cuts: &Cuts, cells: &CellLists, places: usize) -> Result<(), Refusal>
    ensures { AnyTables (λ t. AnyTray places (λ w. number_of result
        ≡ cell_refusal (state_by job cuts.now t) (request (lists_of cells.now) w))) }
{
    opened(job, cuts, Stage::Closed)?;
    if !cells.all_in_grid(job.extents()) {
        return Err(Refusal::NoSuchPlace);
    }
    if !lengths_one(cells.x.len(), cells.y.len(), cells.z.len(), places) {
        return Err(Refusal::WrongTray);
    }
    if !job.tallies_fit() {
        return Err(Refusal::StrayLabel);
    }
    Ok(())
}

// Marks the lowest-numbered block of each cell.
fn mark_blocks(cuts: &Cuts, cells: &CellLists, marks: &mut [bool])
    requires { SomeReady cuts.now (lists_of cells.now) × (length marks.old ≡ most_blocks) }
    ensures { AnyExtents cuts.now (λ k. Ready k (lists_of cells.now)
        → marks.new ≡ marked_by k (lists_of cells.now) (cell_count (lists_of cells.now)) marks.old) }
{
    let n = cells.cell_count();
    for i in 0..n {
        let b = lowest_block(cuts, cells.cell_within(i));
        marks[b] = true;
    }
}

// Lists the marked ones of so many blocks, ascending, in the first places of the tray, and answers how many they are.
fn list_marked(marks: &[bool], count: usize, tray: &mut [u32]) -> u32
    requires { (length marks.now ≡ most_blocks) × (count ≤ most_blocks) × (length (marked_blocks marks.now count) ≤ length tray.old) × (length tray.old ≤ most_cells) }
    ensures { (result ≡ length (marked_blocks marks.now count)) × (tray.new ≡ laid 0 (marked_blocks marks.now count) tray.old) }
{
    let mut place: usize = 0;
    for b in 0..count {
        if marks[b] {
            tray[place] = b as u32;
            place += 1;
        }
    }
    place as u32
}

// Lists the needed blocks in the first places of the tray, and answers how many they are.
fn list_needed(cuts: &Cuts, cells: &CellLists, tray: &mut [u32]) -> u32
    requires { SomeReady cuts.now (lists_of cells.now)
        × (length tray.old ≡ cell_count (lists_of cells.now)) × (length tray.old ≤ most_cells) }
    ensures { AnyExtents cuts.now (λ k. Ready k (lists_of cells.now)
        → Lists k (lists_of cells.now) result tray.old tray.new) }
{
    let mut marks = [false; MOST_BLOCKS];
    mark_blocks(cuts, cells, &mut marks);
    list_marked(&marks, cuts.block_count(), tray)
}

// The blocks that a list of cells of a closed job is read from: each needed block once, ascending, in the first places of the tray, which has one for each
// cell. Answers how many they are. A refused request leaves the tray as it was.
pub fn request_blocks(
    job: Job,
    cuts: &Cuts,
    cells: &CellLists,
    needed: &mut [u32],
) -> Result<u32, Refusal>
    ensures { AnyTables (λ t. CellStep
        (state_by job cuts.now t)
        (request (lists_of cells.now) needed.old)
        (cell_answer (number_of result) (count_of result) needed.new)) }
{
    refuse(job, cuts, cells, needed.len())?;
    Ok(list_needed(cuts, cells, needed))
}
