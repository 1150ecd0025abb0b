// Why input is refused: each reason has a number, which C, the programs and docs know it by.
#![tactic(auto)]

ghost use Rattle.std.specs.Prelude.{◌≡◌};
ghost use Rattle.refusals.specs.Numbers.{number_for, whole};

// One reason for each number of document 01 that is a refusal. 0, acceptance, is none.
#[derive(Clone, Copy, PartialEq, Eq)]
pub enum Refusal {
    NotClosed = 1,
    GoesOn = 2,
    TooManyLines = 3,
    LongLine = 4,
    CutOffLine = 5,
    WrongLineEnd = 6,
    FullTable = 7,
    NoLastBar = 8,
    UnknownRecord = 9,
    LeftForLater = 10,
    WrongFieldCount = 11,
    WrongPlace = 12,
    EmptyField = 13,
    WrongByte = 14,
    WrongSize = 15,
    ZeroInFront = 16,
    NoSuchDate = 17,
    NotAValidValue = 18,
    Disagrees = 19,
    KeyNotGreater = 20,
    Repeated = 21,
    NotWritten = 22,
    LengthsOff = 23,
    SmallOutput = 24,
    LongFile = 25,
    WrongCheckDigit = 26,
    NoWay = 27,
}

impl Refusal {
    pub fn number(self) -> u32
        ensures { result ≡ number_for self }
    {
        // `as`: the number is the variant's own
        self as u32
    }

    // The refusal, with the field that it names.
    pub fn at(self, field: u32) -> Breach
        ensures { result ≡ record { refusal = self; field = field } }
    {
        Breach {
            refusal: self,
            field,
        }
    }
}

// A refusal in a file or a record: why, and the field that it names, 0 where it names none, as document 01 has it.
#[derive(Clone, Copy, PartialEq, Eq)]
pub struct Breach {
    pub refusal: Refusal,
    pub field: u32,
}

// A refusal of the whole names no field.
impl From<Refusal> for Breach {
    ghost from_gives = { λ r b. b ≡ whole r };

    fn from(refusal: Refusal) -> Breach {
        Breach { refusal, field: 0 }
    }
}
