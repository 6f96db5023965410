// What the words of the command line ask for.
ghost use Rattle.std.specs.Prelude.{◌≡◌, ◌+◌, ◌≤◌};
ghost use Rattle.digest.specs.Mistake.{mistake_of};

use crate::fold::{BLOCKS, Every};
use query::{Pair, UnknownName};
use std::fmt;

pub const USAGE: &str = "\
digest CURVE ARITHMETIC                the digest of the answers to all 2^32 patterns
digest CURVE ARITHMETIC FIRST COUNT    the digests of COUNT blocks of 2^24 patterns, from block FIRST on
digest --every STEP                    for each curve and arithmetic, at every STEP-th pattern of each block
digest --help                          this page

CURVE is exp, exp2, exp10 or expm1, ARITHMETIC two-step or fused. Blocks are numbered from 0 to 255.
A digest starts as 0xcbf29ce484222325; each answer w, a pattern of 32 bits, makes h into (h xor w) * 0x100000001b3
modulo 2^64. The digest of several blocks is the same over their digests, the upper 32 bits of each and then the lower.";

// Blocks in a row: a first and a count, since a struct with a `Range` in it could not be `Copy`.
#[derive(Clone, Copy)]
pub struct Blocks {
    pub first: u32,
    pub count: u32,
    ghost inside: { first + count ≤ 256 },
}

pub enum Request {
    Help,
    Whole(Pair),
    Each(Pair, Blocks),
    Sample(Every),
}

#[derive(Clone, Copy)]
pub enum Mistake {
    UnknownCurve,
    UnknownArithmetic,
    Blocks,
    Step,
    Words,
}

impl fmt::Display for Mistake {
    fn fmt<W: fmt::Write>(&self, f: &mut fmt::Formatter<W>) -> fmt::Result {
        f.write_str(match self {
            Mistake::UnknownCurve => "the first word is a curve: exp, exp2, exp10 or expm1",
            Mistake::UnknownArithmetic => "the second word is an arithmetic: two-step or fused",
            Mistake::Blocks =>
                "FIRST and COUNT are whole numbers, and FIRST + COUNT is at most 256",
            Mistake::Step => "STEP is a whole number from 1 to 4294967295",
            Mistake::Words =>
                "expected CURVE ARITHMETIC, with FIRST COUNT or without, or --every STEP; see --help",
        })
    }
}

impl From<UnknownName<'_>> for Mistake {
    ghost from_gives = { λ name m. m ≡ mistake_of name };

    fn from(name: UnknownName<'_>) -> Mistake {
        match name {
            UnknownName::Curve(_) => Mistake::UnknownCurve,
            UnknownName::Arithmetic(_) => Mistake::UnknownArithmetic,
        }
    }
}

fn read_blocks(first: &str, count: &str) -> Result<Blocks, Mistake> {
    let (Ok(first), Ok(count)) = (first.parse::<u32>(), count.parse::<u32>()) else {
        return Err(Mistake::Blocks);
    };
    match first.checked_add(count) {
        Some(end) if end <= BLOCKS => Ok(Blocks { first, count }),
        _ => Err(Mistake::Blocks),
    }
}

fn read_every(step: &str) -> Result<Every, Mistake> {
    step.parse().ok().and_then(Every::new).ok_or(Mistake::Step)
}

pub fn read_request(words: &[String]) -> Result<Request, Mistake> {
    match words {
        [help] if help.as_str() == "--help" => Ok(Request::Help),
        [option, step] if option.as_str() == "--every" => Ok(Request::Sample(read_every(
            step.as_str(),
        )?)),
        [curve, arithmetic] => Ok(Request::Whole(Pair::from_words(
            curve.as_str(),
            arithmetic.as_str(),
        )?)),
        [curve, arithmetic, first, count] => {
            let pair = Pair::from_words(curve.as_str(), arithmetic.as_str())?;
            Ok(Request::Each(pair, read_blocks(first.as_str(), count.as_str())?))
        }
        _ => Err(Mistake::Words),
    }
}
