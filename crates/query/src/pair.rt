// A curve under an arithmetic.
ghost use Rattle.std.specs.Prelude.{◌≡◌, Some};
ghost use Rattle.query.specs.Meaning.{value_of, words_of, answer};
ghost use Rattle.query.specs.Naming.{Names, words_of_unknown};

use crate::names::ArithmeticName;
use accuracy::function::Function;
use arithmetic::{FmaBackend, GenericExpfBackend};
use std::error::Error;
use std::fmt;
use std::num::{f32_from_bits_with_nan, f32_to_bits_with_nan};

#[derive(Clone, Copy, Debug, PartialEq, Eq)]
pub struct Pair {
    pub curve: Function,
    pub arithmetic: ArithmeticName,
}

impl Pair {
    pub fn new(curve: Function, arithmetic: ArithmeticName) -> Pair
        ensures curve { result.curve ≡ curve }
        ensures arithmetic { result.arithmetic ≡ arithmetic }
    {
        Pair { curve, arithmetic }
    }

    // The pair that two words name.
    pub fn from_words<'a>(curve: &'a str, arithmetic: &'a str) -> Result<Pair, UnknownName<'a>>
        ensures { Names curve.now arithmetic.now result }
    {
        Ok(Pair {
            curve: curve.parse().map_err(|_| UnknownName::Curve(curve))?,
            arithmetic: arithmetic
                .parse()
                .map_err(|_| UnknownName::Arithmetic(arithmetic))?,
        })
    }

    // The value at x. Inlined: where the pair is known, nothing is left of the match.
    #[inline(always)]
    pub fn value(self, x: f32) -> f32
        ensures { result ≡ value_of self x }
    {
        match self.arithmetic {
            ArithmeticName::TwoStep => self.curve.figure(&GenericExpfBackend {}, x),
            ArithmeticName::Fused => self.curve.figure(&FmaBackend {}, x),
        }
    }

    // The pattern of the value at the pattern `bits`. Inlined: a call for each pattern of a fill takes a twentieth more time.
    #[inline(always)]
    pub fn answer_at(self, bits: u32) -> u32
        ensures { result ≡ answer (value_of self) bits }
    {
        f32_to_bits_with_nan(self.value(f32_from_bits_with_nan(bits)))
    }
}

impl fmt::Display for Pair {
    ghost output = { λ p. Some (words_of p) };

    fn fmt<W: fmt::Write>(&self, f: &mut fmt::Formatter<W>) -> fmt::Result {
        write!(f, "{} {}", self.curve, self.arithmetic)
    }
}

// A word in the place of a curve or an arithmetic that names none.
#[derive(Clone, Copy, Debug, PartialEq, Eq)]
pub enum UnknownName<'a> {
    Curve(&'a str),
    Arithmetic(&'a str),
}

impl fmt::Display for UnknownName<'_> {
    ghost output = { λ name. Some (words_of_unknown name) };

    fn fmt<W: fmt::Write>(&self, f: &mut fmt::Formatter<W>) -> fmt::Result {
        match self {
            UnknownName::Curve(w) => write!(f, "no curve `{w}`: exp, exp2, exp10 or expm1"),
            UnknownName::Arithmetic(w) => write!(f, "no arithmetic `{w}`: two-step or fused"),
        }
    }
}

impl Error for UnknownName<'_> {}
