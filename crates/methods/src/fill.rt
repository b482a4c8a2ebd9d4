ghost use Rattle.job.specs.JobState.{state_by, AnyTables};
ghost use Rattle.cell_calls.specs.Calls.{fill, cell_answer};
ghost use Rattle.cell_calls.specs.Outcomes.{CellStep};
ghost use Rattle.reading_cells.specs.Inner.{lent_over, sent};
ghost use Rattle.refusals.specs.Refusals.{number_of};

use crate::Joining;
use blocks::Cuts;
use judge_cells::CellLists;
use reading_cell::LookupTables;
use reading_cells::fill_cells;
use refusals::Refusal;

impl Joining {
    // Fills in the answers of a list of cells of a closed job that are read from one block.
    pub fn fill_cells(
        self,
        cuts: &Cuts,
        tables: &LookupTables,
        cells: &CellLists,
        block: u32,
        m: &[u32],
        answers: &mut [u32],
    ) -> Result<(), Refusal>
        ensures { AnyTables (λ t. CellStep
            (state_by self.job cuts.now (lent_over t tables.now))
            (fill (sent cells.now) block m.now answers.old)
            (cell_answer (number_of result) 0 answers.new)) }
    {
        fill_cells(self.job, cuts, tables, cells, block, m, answers)
    }
}
