ghost use Rattle.joiner.specs.Calls.{reading, answer};
ghost use Rattle.joiner.specs.Outcomes.{CallStep};
ghost use Rattle.job.specs.JobState.{state_of, AnyCuts, AnyTables};
ghost use Rattle.job.specs.Lent.{row_lent};
ghost use Rattle.reading_row.specs.Inner.{kind_of, part_of};
ghost use Rattle.refusals.specs.Refusals.{number_of};

use crate::Joining;
use reading_row::{Kind, row};
use refusals::Refusal;

impl Joining {
    // The row of one face, curve or point of a closed job.
    pub fn row<'a>(
        self,
        kind: Kind,
        number: u32,
        face_listed: &'a [u32],
        curve_listed: &'a [u32],
        point_listed: &'a [u32],
    ) -> Result<&'a [u32], Refusal>
        ensures { AnyCuts (λ cx cy cz. AnyTables (λ t. CallStep
            (state_of self.job cx cy cz
            (row_lent t face_listed.now curve_listed.now point_listed.now))
            (reading (kind_of kind) number) (answer (number_of result) 0 (part_of result))
            (state_of self.job cx cy cz
            (row_lent t face_listed.now curve_listed.now point_listed.now)))) }
    {
        row(
            self.job,
            kind,
            number,
            face_listed,
            curve_listed,
            point_listed,
        )
    }
}
