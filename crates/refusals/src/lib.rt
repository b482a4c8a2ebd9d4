// The refusals: what the service declines, by name and number. No refusal is 0.
#![tactic(auto)]

ghost use Rattle.std.specs.Prelude.{◌≡◌};
ghost use Rattle.refusals.specs.Refusals.{number, number_of};

// A refusal, by what it is called, with its number.
#[derive(Clone, Copy, Debug, PartialEq, Eq)]
pub enum Refusal {
    OffSize = 1,
    BadCut = 2,
    WrongStage = 3,
    NoSuchPlace = 4,
    DoneAlready = 5,
    WrongTray = 6,
    // No longer given; it keeps its number.
    BlankVoxel = 7,
    StrayLabel = 8,
    LayersDiffer = 9,
    TableFull = 10,
    BadRecord = 11,
    BadReading = 12,
}

impl From<Refusal> for u32 {
    fn from(refusal: Refusal) -> u32
        ensures { result ≡ number refusal }
    {
        refusal as u32
    }
}

// The number of what a call answers: its refusal's, 0 where it is accepted.
pub fn number_of<T>(answer: &Result<T, Refusal>) -> u32
    ensures { result ≡ number_of answer.now }
{
    match answer {
        Ok(_) => 0,
        Err(refusal) => u32::from(*refusal),
    }
}
