// How many faces, curves and points there are, and three lent places for them.
#![tactic(auto)]

ghost use Rattle.std.specs.Prelude.{◌≡◌};
ghost use Rattle.counts.specs.Counts.{stored_counts, answer_stored};

use refusals::Refusal;

// How many faces, curves and points there are.
#[derive(Clone, Copy)]
pub struct Counts {
    pub faces: u32,
    pub curves: u32,
    pub points: u32,
}

// Stores the three numbers, unless the call is refused.
// Kept: a refusal by number beside the values: a caller may hand on any number, and values beside a refusal; `store_answer` takes an answer.
#[tactic(auto, unfolding(crate::specs::Counts::stored_counts))]
pub fn store_counts(refusal: u32, faces: u32, curves: u32, points: u32, counts: &mut [u32; 3])
    ensures { counts.new ≡ stored_counts refusal faces curves points counts.old }
{
    if refusal == 0 {
        counts[0] = faces;
        counts[1] = curves;
        counts[2] = points;
    }
}

// Stores what an answer counts, unless it is a refusal.
pub fn store_answer(answer: &Result<Counts, Refusal>, counts: &mut [u32; 3])
    ensures { counts.new ≡ answer_stored answer.now counts.old }
{
    match answer {
        Ok(n) => store_counts(0, n.faces, n.curves, n.points, counts),
        Err(refusal) => store_counts(u32::from(*refusal), 0, 0, 0, counts),
    }
}
