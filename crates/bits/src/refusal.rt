// Why an input is refused: a line for each number of specs/Numbers.antt above 0, in that order.
ghost use Rattle.std.specs.Prelude.{◌≡◌};
ghost use Rattle.bits.specs.Refused.{refused};

use std::error::Error;
use std::fmt;

#[derive(Clone, Copy, Debug, PartialEq, Eq)]
pub enum Refusal {
    WrongLength,
    NoSync,
    ShortHeader,
    BadStartCode,
    ShortContents,
    BadCheckBits,
    HeaderPastBuffer,
    FieldsPastHeader,
    FieldNotPresent,
    PtsDtsFlagsInvalid,
    NotEnoughData,
    MarkerBitNotSet { bit_number: u8 },
    IncorrectPrefixBits { expected: u8, actual: u8 },
    OutOfRange,
    LogFull,
    IndexFull,
    BadField,
    TooLong,
    NoRoom,
    StoreFull,
}

impl Refusal {
    // Its number.
    pub fn number(self) -> u8
        ensures { result ≡ (refused self).number }
    {
        match self {
            Refusal::WrongLength => 1,
            Refusal::NoSync => 2,
            Refusal::ShortHeader => 3,
            Refusal::BadStartCode => 4,
            Refusal::ShortContents => 5,
            Refusal::BadCheckBits => 6,
            Refusal::HeaderPastBuffer => 7,
            Refusal::FieldsPastHeader => 8,
            Refusal::FieldNotPresent => 9,
            Refusal::PtsDtsFlagsInvalid => 10,
            Refusal::NotEnoughData => 11,
            Refusal::MarkerBitNotSet { .. } => 12,
            Refusal::IncorrectPrefixBits { .. } => 13,
            Refusal::OutOfRange => 14,
            Refusal::LogFull => 15,
            Refusal::IndexFull => 16,
            Refusal::BadField => 17,
            Refusal::TooLong => 18,
            Refusal::NoRoom => 19,
            Refusal::StoreFull => 20,
        }
    }
}

impl fmt::Display for Refusal {
    fn fmt<W: fmt::Write>(&self, f: &mut fmt::Formatter<W>) -> fmt::Result {
        match self {
            Refusal::WrongLength => write!(f, "wrong length"),
            Refusal::NoSync => write!(f, "no sync byte"),
            Refusal::ShortHeader => write!(f, "header too short"),
            Refusal::BadStartCode => write!(f, "no start code"),
            Refusal::ShortContents => write!(f, "contents too short"),
            Refusal::BadCheckBits => write!(f, "check bits are not 10"),
            Refusal::HeaderPastBuffer => write!(f, "header data end past the bytes"),
            Refusal::FieldsPastHeader => write!(f, "fields end past the header data"),
            Refusal::FieldNotPresent => write!(f, "field not present"),
            Refusal::PtsDtsFlagsInvalid => write!(f, "PTS and DTS flags are 01"),
            Refusal::NotEnoughData => write!(f, "not enough data"),
            Refusal::MarkerBitNotSet { bit_number } => {
                write!(f, "marker bit {} not set", bit_number)
            }
            Refusal::IncorrectPrefixBits { expected, actual } => {
                write!(f, "prefix bits are {}, not {}", actual, expected)
            }
            Refusal::OutOfRange => write!(f, "out of range"),
            Refusal::LogFull => write!(f, "log full"),
            Refusal::IndexFull => write!(f, "index full"),
            Refusal::BadField => write!(f, "a field cannot be written"),
            Refusal::TooLong => write!(f, "too long"),
            Refusal::NoRoom => write!(f, "no room"),
            Refusal::StoreFull => write!(f, "store full"),
        }
    }
}

impl Error for Refusal {}
