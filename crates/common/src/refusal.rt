// The rows of the table of refusals, and a refusal with its place (If a call declines).
ghost use Rattle.std.specs.Prelude.{◌≡◌};
ghost use Rattle.common.specs.Refusals.{number_of, at_zero};

// A row of the table.
#[derive(Clone, Copy, PartialEq, Eq)]
pub enum Refusal {
    NoProfile,
    NoWeekday,
    Unfit,
    OutOfRange,
    Unsound,
    NoBoundary,
    AlreadyThere,
    OutOfOrder,
    TooMuch,
    NotThere,
    TooFewReadings,
    TooGreat,
    BadFile,
    NoDay,
    NoRoom,
    BadList,
    TooMuchLoad,
    NoBase,
}

// A row of the table with its place: an index or an offset, 0 where the row has none.
#[derive(Clone, Copy, PartialEq, Eq)]
pub struct Fault {
    pub refusal: Refusal,
    pub place: usize,
}

impl Refusal {
    // The paper's number for the row.
    pub fn number(self) -> u8
        ensures { result ≡ number_of self }
    {
        match self {
            Refusal::NoProfile => 1,
            Refusal::NoWeekday => 2,
            Refusal::Unfit => 3,
            Refusal::OutOfRange => 4,
            Refusal::Unsound => 5,
            Refusal::NoBoundary => 6,
            Refusal::AlreadyThere => 7,
            Refusal::OutOfOrder => 8,
            Refusal::TooMuch => 9,
            Refusal::NotThere => 10,
            Refusal::TooFewReadings => 11,
            Refusal::TooGreat => 12,
            Refusal::BadFile => 13,
            Refusal::NoDay => 14,
            Refusal::NoRoom => 15,
            Refusal::BadList => 16,
            Refusal::TooMuchLoad => 17,
            Refusal::NoBase => 18,
        }
    }
}

impl From<Refusal> for Fault {
    ghost from_gives = { λ refusal fault. fault ≡ at_zero refusal };

    fn from(refusal: Refusal) -> Fault {
        Fault { refusal, place: 0 }
    }
}
