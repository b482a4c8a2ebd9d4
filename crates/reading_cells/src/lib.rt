// The answers of a list of cells of a closed job that are read from one block.
#![tactic(auto)]

ghost use Rattle.std.specs.Prelude.{◌≡◌, true, ◌&&◌, get_or, length};
ghost use Rattle.lists.specs.Lists.{consecutive, tabulate, all_of, some_of};
ghost use Rattle.cells.specs.Box.{triple};
ghost use Rattle.cells.specs.Extents.{Sized};
ghost use Rattle.cutting.specs.Cutting.{good_cut};
ghost use Rattle.cells.specs.Grid.{sides};
ghost use Rattle.blocks.specs.Blocks.{cut_by, AnyExtents};
ghost use Rattle.job.specs.JobState.{state_by, AnyTables};
ghost use Rattle.refusals.specs.Refusals.{number_of};
ghost use Rattle.cell_calls.specs.Cells.{cell_count, cell_at, in_grid, all_in_grid, is_needed};
ghost use Rattle.cell_calls.specs.Calls.{fill, cell_answer};
ghost use Rattle.cell_calls.specs.Declines.{cell_refusal};
ghost use Rattle.cell_calls.specs.Outcomes.{CellStep};
ghost use Rattle.judge_cells.specs.Tests.{late_of, AnyTray};
ghost use Rattle.reading_cells.specs.Inner.{sent, lent_over, is_own, stands_at, answer_at, ReadsFrom, Placed, Bounded};

use blocks::{Block, Cuts};
use cells::Triple;
use job::{Job, Stage};
use judge::{CallName, Entry, entry_of, fits, judge_map, opened};
use judge_cells::{CellLists, lengths_one};
use lists::read_or;
use lowest::{is_lowest, starts_of};
use reading_cell::{LookupTables, number_handed, number_of};
use refusals::Refusal;

// The block that answers are read from: origin and extents, its starts, and what the block table tells of it.
#[derive(Clone, Copy)]
struct Source {
    block: Block,
    start: Triple,
    entry: Entry,
}

fn source_of(cuts: &Cuts, table: &[u32], b: u32) -> Source
    ensures { AnyExtents cuts.now (λ k. ReadsFrom k table.now b result) }
{
    Source {
        block: cuts.block_at(b as usize),
        start: starts_of(cuts, b as usize),
        entry: entry_of(table, b),
    }
}

// ---- the tests

// Whether a cell is read from the block.
#[tactic(auto, unfolding(crate::specs::Inner::is_own))]
fn is_own(from: Source, c: Triple) -> bool
    ensures { result ≡ is_own from c }
{
    is_lowest(from.block, from.start, c)
}

// Whether some cell of the list is read from the block.
fn some_own(from: Source, cells: &CellLists) -> bool
    ensures { result ≡ some_of (λ i. is_own from (cell_at (sent cells.now) i)) (consecutive 0 (cell_count (sent cells.now))) }
{
    let n = cells.cell_count();
    (0..n).any(|i| is_own(from, cells.cell_at(i)))
}

// Whether every cell is one of the grid, and the block is a needed one.
fn placed(job: Job, cuts: &Cuts, table: &[u32], cells: &CellLists, b: u32) -> bool
    requires { good_cut (cut_by (triple job.nx job.ny job.nz) cuts.now) ≡ true }
    ensures { result ≡ (all_in_grid (triple job.nx job.ny job.nz) (sent cells.now)
        && is_needed (cut_by (triple job.nx job.ny job.nz) cuts.now) (sent cells.now) b) }
{
    cells.all_in_grid(job.extents())
        && cuts.has_block(b)
        && some_own(source_of(cuts, table, b), cells)
}

// Whether the final number that a cell hands out is one of the closed table's, if it is read from the block.
#[tactic(auto, unfolding(crate::specs::Inner::stands_at, crate::specs::Inner::held_at))]
fn stands_at(job: Job, from: Source, tables: &LookupTables, m: &[u32], c: Triple) -> bool
    requires { Sized 64 from.block.size }
    ensures { result ≡ stands_at job from tables.now.faces.now tables.now.curves.now m.now c }
{
    if !is_own(from, c) {
        return true;
    }
    let n = read_or(m, from.block.local(c), 0);
    number_handed(job, from.entry, tables, n, c)
}

// .. of all cells of the list.
fn all_stand(job: Job, from: Source, tables: &LookupTables, m: &[u32], cells: &CellLists) -> bool
    requires { Sized 64 from.block.size }
    ensures { result ≡ all_of (λ i. stands_at job from tables.now.faces.now tables.now.curves.now m.now (cell_at (sent cells.now) i))
        (consecutive 0 (cell_count (sent cells.now))) }
{
    let n = cells.cell_count();
    (0..n).all(|i| stands_at(job, from, tables, m, cells.cell_at(i)))
}

// The refusals 6 and 8 of a filling whose cells and block are there, with a tray of so many places.
fn judged(
    job: Job,
    cuts: &Cuts,
    tables: &LookupTables,
    cells: &CellLists,
    b: u32,
    m: &[u32],
    places: usize,
) -> Result<(), Refusal>
    requires { Placed (cut_by (triple job.nx job.ny job.nz) cuts.now) (sent cells.now) b }
    ensures { AnyTables (λ t. AnyTray places (λ w. number_of result ≡ late_of
        (state_by job cuts.now (lent_over t tables.now)) (fill (sent cells.now) b m.now w))) }
{
    if !lengths_one(cells.x.len(), cells.y.len(), cells.z.len(), places) {
        return Err(Refusal::WrongTray);
    }
    let from = source_of(cuts, tables.blocks, b);
    let lengths = tables.lengths();
    let count = cuts.block_count();
    let whole = fits(CallName::Lookup, count, from.block, job, lengths, m.len());
    judge_map(job, from.block, from.entry, whole, m)?;
    if !all_stand(job, from, tables, m, cells) {
        return Err(Refusal::StrayLabel);
    }
    Ok(())
}

// The refusal, that of the lowest number that applies, of a filling with a tray of so many places.
fn refuse(
    job: Job,
    cuts: &Cuts,
    tables: &LookupTables,
    cells: &CellLists,
    b: u32,
    m: &[u32],
    places: usize,
) -> Result<(), Refusal>
    ensures { AnyTables (λ t. AnyTray places (λ w. number_of result ≡ cell_refusal
        (state_by job cuts.now (lent_over t tables.now)) (fill (sent cells.now) b m.now w))) }
{
    opened(job, cuts, Stage::Closed)?;
    if !placed(job, cuts, tables.blocks, cells, b) {
        return Err(Refusal::NoSuchPlace);
    }
    judged(job, cuts, tables, cells, b, m, places)
}

// ---- the answers

// The answer of a cell: its number if it is read from the block, and else what stood there.
#[tactic(auto, unfolding(crate::specs::Inner::answer_at, crate::specs::Inner::held_at))]
fn answer_at(job: Job, from: Source, tables: &LookupTables, m: &[u32], c: Triple, old: u32) -> u32
    requires { Sized 1024 (triple job.nx job.ny job.nz) × Sized 64 from.block.size × (in_grid (sides (triple job.nx job.ny job.nz)) c ≡ true) }
    ensures { result ≡ answer_at job from tables.now.faces.now tables.now.curves.now tables.now.points.now m.now c old }
{
    if !is_own(from, c) {
        return old;
    }
    let n = read_or(m, from.block.local(c), 0);
    number_of(job, from.block, from.entry, tables, n, c)
}

// Fills in the answers of the cells that are read from the block.
fn fill_answers(
    job: Job,
    from: Source,
    tables: &LookupTables,
    m: &[u32],
    cells: &CellLists,
    answers: &mut [u32],
)
    requires { Bounded (triple job.nx job.ny job.nz) from (sent cells.now) (length answers.old) }
    ensures { answers.new ≡ tabulate (length answers.old) (λ i. answer_at job from
        tables.now.faces.now tables.now.curves.now tables.now.points.now m.now
        (cell_at (sent cells.now) i) (get_or answers.old i 0)) }
{
    for (i, answer) in answers.iter_mut().enumerate() {
        *answer = answer_at(job, from, tables, m, cells.cell_at(i), *answer);
    }
}

// Fills in the answers of a list of cells of a closed job that are read from one block, by the block's map: the final number of each such cell, as a lookup
// gives it. The tray has one place for each cell, and the other answers in it stay. A refused filling leaves all of it as it was.
pub fn fill_cells(
    job: Job,
    cuts: &Cuts,
    tables: &LookupTables,
    cells: &CellLists,
    block: u32,
    m: &[u32],
    answers: &mut [u32],
) -> Result<(), Refusal>
    ensures { AnyTables (λ t. CellStep
        (state_by job cuts.now (lent_over t tables.now))
        (fill (sent cells.now) block m.now answers.old)
        (cell_answer (number_of result) 0 answers.new)) }
{
    refuse(job, cuts, tables, cells, block, m, answers.len())?;
    let from = source_of(cuts, tables.blocks, block);
    fill_answers(job, from, tables, m, cells, answers);
    Ok(())
}
