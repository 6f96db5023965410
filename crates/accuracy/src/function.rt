// The four functions by name, with all that is proved of their figures: equal to the steps, right, exact where the rules say so, and the standard's special values.
ghost use Rattle.std.specs.Prelude.{◌≡◌, T, Some};
ghost use Rattle.std.specs.Float.Ieee.Scale.{finite};
ghost use Rattle.accuracy.specs.Figures.{figure, Right, Exactly, Special};
ghost use Rattle.accuracy.specs.Functions.{curve_of, code_of, OnlyFunction, Decoded, word_of, Spells, words_of_codes, words_of_functions};

use arithmetic::ExpfBackend;
use curves::Curve;
use curves::exp2f::Exp2;
use curves::exp10f::Exp10;
use curves::expf::Exp;
use curves::expm1f::Expm1;
use std::error::Error;
use std::fmt;
use std::str::FromStr;

#[derive(Clone, Copy, Debug, PartialEq, Eq)]
pub enum Function {
    Exp,
    Exp2,
    Exp10,
    Expm1,
}

impl Function {
    pub const ALL: [Function; 4] = [
        Function::Exp,
        Function::Exp2,
        Function::Exp10,
        Function::Expm1,
    ];

    // The figure at x. Inlined: where the function is known, nothing is left of the match.
    #[inline(always)]
    pub fn figure<B: ExpfBackend>(self, arith: &B, x: f32) -> f32
        ensures steps { result ≡ figure (curve_of self) (B.ExpfBackend.meaning arith.now) x }
        ensures right { T (finite x) → Right (curve_of self) x result }
        ensures exact { Exactly (curve_of self) x result }
        ensures special { Special (curve_of self) x result }
    {
        match self {
            Function::Exp => Exp::value(arith, x),
            Function::Exp2 => Exp2::value(arith, x),
            Function::Exp10 => Exp10::value(arith, x),
            Function::Expm1 => Expm1::value(arith, x),
        }
    }
}

// A code that no function has.
#[derive(Clone, Copy, Debug, PartialEq, Eq)]
pub struct UnknownCode;

impl fmt::Display for UnknownCode {
    ghost output = { λ _. Some words_of_codes };

    fn fmt<W: fmt::Write>(&self, f: &mut fmt::Formatter<W>) -> fmt::Result {
        f.write_str("the functions have the codes 0 to 3")
    }
}

impl Error for UnknownCode {}

// A word that no function has.
#[derive(Clone, Copy, Debug, PartialEq, Eq)]
pub struct UnknownWord;

impl fmt::Display for UnknownWord {
    ghost output = { λ _. Some words_of_functions };

    fn fmt<W: fmt::Write>(&self, f: &mut fmt::Formatter<W>) -> fmt::Result {
        f.write_str("the functions are exp, exp2, exp10 and expm1")
    }
}

impl Error for UnknownWord {}

// The code of a function. No two have the same.
impl From<Function> for u8 {
    ghost from_gives = { λ f n. (n ≡ code_of f) × OnlyFunction f n };

    fn from(function: Function) -> u8 {
        function as u8
    }
}

// A code above 3 has no function.
impl TryFrom<u8> for Function {
    type Error = UnknownCode;

    ghost try_from_gives = { Decoded };

    fn try_from(code: u8) -> Result<Function, UnknownCode> {
        match code {
            0 => Ok(Function::Exp),
            1 => Ok(Function::Exp2),
            2 => Ok(Function::Exp10),
            3 => Ok(Function::Expm1),
            _ => Err(UnknownCode),
        }
    }
}

impl FromStr for Function {
    type Err = UnknownWord;

    ghost from_str_gives = { Spells word_of };

    fn from_str(word: &str) -> Result<Function, UnknownWord> {
        match word {
            "exp" => Ok(Function::Exp),
            "exp2" => Ok(Function::Exp2),
            "exp10" => Ok(Function::Exp10),
            "expm1" => Ok(Function::Expm1),
            _ => Err(UnknownWord),
        }
    }
}

impl fmt::Display for Function {
    ghost output = { λ f. Some (word_of f) };

    fn fmt<W: fmt::Write>(&self, f: &mut fmt::Formatter<W>) -> fmt::Result {
        f.write_str(match self {
            Function::Exp => "exp",
            Function::Exp2 => "exp2",
            Function::Exp10 => "exp10",
            Function::Expm1 => "expm1",
        })
    }
}
