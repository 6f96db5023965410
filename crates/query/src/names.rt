// The two arithmetics by name.
ghost use Rattle.std.specs.Prelude.{Some};
ghost use Rattle.accuracy.specs.Functions.{Spells};
ghost use Rattle.query.specs.Names.{word_of_arithmetic, words_of_arithmetics};

use std::error::Error;
use std::fmt;
use std::str::FromStr;

#[derive(Clone, Copy, Debug, PartialEq, Eq)]
pub enum ArithmeticName {
    TwoStep,
    Fused,
}

impl ArithmeticName {
    pub const ALL: [ArithmeticName; 2] = [ArithmeticName::TwoStep, ArithmeticName::Fused];
}

// A word that no arithmetic has.
#[derive(Clone, Copy, Debug, PartialEq, Eq)]
pub struct UnknownArithmetic;

impl fmt::Display for UnknownArithmetic {
    ghost output = { λ _. Some words_of_arithmetics };

    fn fmt<W: fmt::Write>(&self, f: &mut fmt::Formatter<W>) -> fmt::Result {
        f.write_str("the arithmetics are two-step and fused")
    }
}

impl Error for UnknownArithmetic {}

impl FromStr for ArithmeticName {
    type Err = UnknownArithmetic;

    ghost from_str_gives = { Spells word_of_arithmetic };

    fn from_str(word: &str) -> Result<ArithmeticName, UnknownArithmetic> {
        match word {
            "two-step" => Ok(ArithmeticName::TwoStep),
            "fused" => Ok(ArithmeticName::Fused),
            _ => Err(UnknownArithmetic),
        }
    }
}

impl fmt::Display for ArithmeticName {
    ghost output = { λ a. Some (word_of_arithmetic a) };

    fn fmt<W: fmt::Write>(&self, f: &mut fmt::Formatter<W>) -> fmt::Result {
        f.write_str(match self {
            ArithmeticName::TwoStep => "two-step",
            ArithmeticName::Fused => "fused",
        })
    }
}
