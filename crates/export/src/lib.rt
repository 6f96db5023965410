// The curves over bit patterns: every pattern of a slice, and the pairs by the numbers that C knows them by.

#![tactic(auto)]

ghost use Rattle.std.specs.Prelude.{Some};
ghost use Rattle.query.specs.Meaning.{value_of};
ghost use Rattle.export.specs.Answers.{Answered};
ghost use Rattle.export.specs.Numbered.{NumberedPair, words_of_unknown};

use accuracy::function::Function;
use query::{ArithmeticName, Pair};
use std::error::Error;
use std::fmt;

// Replaces every pattern by the pair's answer.
pub fn fill(pair: Pair, patterns: &mut [u32])
    ensures { Answered (value_of pair) patterns.old patterns.new }
{
    for p in patterns.iter_mut() {
        *p = pair.answer_at(*p);
    }
}

// A curve and an arithmetic by number, as the C interface has them: curves 0 exp, 1 exp2, 2 exp10, 3 expm1;
// arithmetics 0 two-step, 1 fused.
#[derive(Clone, Copy, Debug, PartialEq, Eq)]
pub struct Numbers {
    pub curve: u32,
    pub arithmetic: u32,
}

// The first of the two numbers that names nothing.
#[derive(Clone, Copy, Debug, PartialEq, Eq)]
pub enum UnknownNumber {
    Curve,
    Arithmetic,
}

impl fmt::Display for UnknownNumber {
    ghost output = { λ unknown. Some (words_of_unknown unknown) };

    fn fmt<W: fmt::Write>(&self, f: &mut fmt::Formatter<W>) -> fmt::Result {
        f.write_str(match self {
            UnknownNumber::Curve => "the curves are 0 to 3",
            UnknownNumber::Arithmetic => "the arithmetics are 0 and 1",
        })
    }
}

impl Error for UnknownNumber {}

// The number of a curve is its code.
impl TryFrom<Numbers> for Pair {
    type Error = UnknownNumber;

    ghost try_from_gives = { NumberedPair };

    fn try_from(numbers: Numbers) -> Result<Pair, UnknownNumber> {
        let curve = u8::try_from(numbers.curve)
            .ok()
            .and_then(|code| Function::try_from(code).ok())
            .ok_or(UnknownNumber::Curve)?;
        // only C numbers the arithmetics
        let arithmetic = match numbers.arithmetic {
            0 => ArithmeticName::TwoStep,
            1 => ArithmeticName::Fused,
            _ => return Err(UnknownNumber::Arithmetic),
        };
        Ok(Pair { curve, arithmetic })
    }
}
