// Rule 10: the refusals and their numbers.
ghost use Rattle.std.specs.Prelude.{◌≡◌, Some};
ghost use Rattle.std.specs.Fmt.{decimal};
ghost use Rattle.table.specs.Refusals.{number};

use std::error::Error;
use std::fmt;

#[derive(Clone, Copy, Debug, PartialEq, Eq)]
pub enum Refusal {
    DelayNegative,
    DelayTooLong,
    SettingOutOfRange,
    StorageShort,
    TableNotWhole,
    OutOfStep,
    FramesUsedUp,
    Period,
    TooManyDetections,
    Lengths,
    OutputShort,
    NotFinite,
    TableFull,
    IdsUsedUp,
}

impl Refusal {
    pub fn number(self) -> u32
        ensures { result ≡ number self }
    {
        match self {
            Refusal::DelayNegative => 1,
            Refusal::DelayTooLong => 2,
            Refusal::SettingOutOfRange => 3,
            Refusal::StorageShort => 4,
            Refusal::TableNotWhole => 5,
            Refusal::OutOfStep => 6,
            Refusal::FramesUsedUp => 7,
            Refusal::Period => 8,
            Refusal::TooManyDetections => 9,
            Refusal::Lengths => 10,
            Refusal::OutputShort => 11,
            Refusal::NotFinite => 12,
            Refusal::TableFull => 13,
            Refusal::IdsUsedUp => 14,
        }
    }
}

// The number, as hosts and logs have it.
impl fmt::Display for Refusal {
    ghost output = { λ r. Some (decimal (number r)) };

    fn fmt<W: fmt::Write>(&self, f: &mut fmt::Formatter<W>) -> fmt::Result {
        write!(f, "{}", self.number())
    }
}

impl Error for Refusal {}
