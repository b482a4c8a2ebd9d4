ghost use Rattle.job.specs.JobState.{state_by, AnyTables};
ghost use Rattle.cell_calls.specs.Calls.{request, cell_answer};
ghost use Rattle.cell_calls.specs.Outcomes.{CellStep};
ghost use Rattle.reading_blocks.specs.Marks.{count_of, lists_of};
ghost use Rattle.refusals.specs.Refusals.{number_of};

use crate::Joining;
use blocks::Cuts;
use judge_cells::CellLists;
use reading_blocks::request_blocks;
use refusals::Refusal;

impl Joining {
    // The blocks that a list of cells of a closed job is read from: how many they are.
    pub fn request_blocks(
        self,
        cuts: &Cuts,
        cells: &CellLists,
        needed: &mut [u32],
    ) -> Result<u32, Refusal>
        ensures { AnyTables (λ t. CellStep
            (state_by self.job cuts.now t)
            (request (lists_of cells.now) needed.old)
            (cell_answer (number_of result) (count_of result) needed.new)) }
    {
        request_blocks(self.job, cuts, cells, needed)
    }
}
