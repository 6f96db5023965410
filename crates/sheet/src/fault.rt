// Why a call is refused.
ghost use Rattle.std.specs.Prelude.{◌≡◌, Some};
ghost use Rattle.sheet.specs.declared.fault.Fault.TheVariants.{FunctionCode};
ghost use Rattle.sheet.specs.Faults.{number_of, OnlyFault, reason_of};

use accuracy::function::UnknownCode;
use std::error::Error;
use std::fmt;

#[derive(Clone, Copy, Debug, PartialEq, Eq)]
pub enum Fault {
    SheetSize = 1,
    RunFull = 2,
    CardLength = 3,
    UnusedField = 4,
    PartRange = 5,
    FunctionCode = 6,
    InputNotFinite = 7,
    PegNumber = 8,
    PegNotBlank = 9,
    PegBlank = 10,
    PegNotWorked = 11,
}

// The number of a refusal. No two have the same.
impl From<Fault> for u8 {
    ghost from_gives = { λ e n. (n ≡ number_of e) × OnlyFault e n };

    fn from(fault: Fault) -> u8 {
        fault as u8
    }
}

impl From<UnknownCode> for Fault {
    ghost from_gives = { λ _ e. e ≡ FunctionCode };

    fn from(_: UnknownCode) -> Self {
        Self::FunctionCode
    }
}

impl fmt::Display for Fault {
    ghost output = { λ e. Some (reason_of e) };

    fn fmt<W: fmt::Write>(&self, f: &mut fmt::Formatter<W>) -> fmt::Result {
        f.write_str(match self {
            Fault::SheetSize => "the sheet has no peg, or more than 4096",
            Fault::RunFull => "the run has taken its last card",
            Fault::CardLength => "the card is not 6 bytes long",
            Fault::UnusedField => "a field that is not used is not 0",
            Fault::PartRange => "the part goes beyond the last peg",
            Fault::FunctionCode => "the function code is above 3",
            Fault::InputNotFinite => "the input is not finite",
            Fault::PegNumber => "there is no such peg",
            Fault::PegNotBlank => "the peg is not blank",
            Fault::PegBlank => "the peg is blank",
            Fault::PegNotWorked => "the peg is not worked",
        })
    }
}

impl Error for Fault {}
