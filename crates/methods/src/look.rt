ghost use Rattle.std.specs.Prelude.{[]};
ghost use Rattle.joiner.specs.Calls.{look, answer};
ghost use Rattle.joiner.specs.Outcomes.{CallStep};
ghost use Rattle.job.specs.JobState.{state_by, AnyTables};
ghost use Rattle.reading_cell.specs.Inner.{number_read};
ghost use Rattle.reading_cells.specs.Inner.{lent_over};
ghost use Rattle.refusals.specs.Refusals.{number_of};

use crate::Joining;
use blocks::Cuts;
use cells::Triple;
use reading_cell::{LookupTables, lookup};
use refusals::Refusal;

impl Joining {
    // The number of a cell of a closed job.
    pub fn lookup(
        self,
        cuts: &Cuts,
        tables: &LookupTables,
        block: u32,
        m: &[u32],
        c: Triple,
    ) -> Result<u32, Refusal>
        ensures { AnyTables (λ t. CallStep
            (state_by self.job cuts.now (lent_over t tables.now))
            (look block m.now c) (answer (number_of result) (number_read result) [])
            (state_by self.job cuts.now (lent_over t tables.now))) }
    {
        lookup(self.job, cuts, tables, block, m, c)
    }
}
