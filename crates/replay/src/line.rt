// One line of the list: a curve, an arithmetic, a pattern and the answer that was recorded.
ghost use Rattle.std.specs.Prelude.{◌≡◌, IfOk};
ghost use Rattle.accuracy.specs.Functions.{word_of};
ghost use Rattle.query.specs.Names.{word_of_arithmetic};
ghost use Rattle.query.specs.Pattern.{pattern_of};
ghost use Rattle.replay.specs.declared.line.Mistake.TheVariants.{Name};

use query::{Pair, UnknownName};
use std::fmt;

#[derive(Clone, Copy)]
pub struct Recorded {
    pub pair: Pair,
    pub pattern: u32,
    pub theirs: u32,
}

#[derive(Clone, Copy)]
pub enum Mistake<'a> {
    NotText,
    Words,
    Name(UnknownName<'a>),
    UnknownPattern(&'a str),
}

impl fmt::Display for Mistake<'_> {
    fn fmt<W: fmt::Write>(&self, f: &mut fmt::Formatter<W>) -> fmt::Result {
        match self {
            Mistake::NotText => write!(f, "not text: a line is CURVE ARITHMETIC PATTERN ANSWER"),
            Mistake::Words => write!(f, "a line has four words, CURVE ARITHMETIC PATTERN ANSWER"),
            Mistake::Name(name) => write!(f, "{name}"),
            Mistake::UnknownPattern(w) => write!(
                f,
                "no pattern `{w}`: 0x and up to eight hexadecimal digits"
            ),
        }
    }
}

impl<'a> From<UnknownName<'a>> for Mistake<'a> {
    ghost from_gives = { λ name m. m ≡ Name name };

    fn from(name: UnknownName<'a>) -> Self {
        Self::Name(name)
    }
}

fn read_pattern(word: &str) -> Result<u32, Mistake<'_>>
    ensures { IfOk result (λ n. n ≡ pattern_of word.now) }
{
    query::read_pattern(word).ok_or(Mistake::UnknownPattern(word))
}

fn read_words<'a>(
    curve: &'a str,
    arithmetic: &'a str,
    pattern: &'a str,
    theirs: &'a str,
) -> Result<Recorded, Mistake<'a>>
    ensures names { IfOk result (λ line. (curve.now ≡ word_of line.pair.curve) × (arithmetic.now ≡ word_of_arithmetic line.pair.arithmetic)) }
    ensures patterns { IfOk result (λ line. (line.pattern ≡ pattern_of pattern.now) × (line.theirs ≡ pattern_of theirs.now)) }
{
    Ok(Recorded {
        pair: Pair::from_words(curve, arithmetic)?,
        pattern: read_pattern(pattern)?,
        theirs: read_pattern(theirs)?,
    })
}

fn read_text(line: &str) -> Result<Recorded, Mistake<'_>> {
    let mut words = line.split_whitespace();
    let (Some(curve), Some(arithmetic), Some(pattern), Some(theirs), None) = (
        words.next(),
        words.next(),
        words.next(),
        words.next(),
        words.next(),
    ) else {
        return Err(Mistake::Words);
    };
    read_words(curve, arithmetic, pattern, theirs)
}

// In `curve` too, with that program's own words and mistakes: what reads either line differs, and the rest is two lines.
pub fn read_bytes(line: &[u8]) -> Result<Recorded, Mistake<'_>> {
    let text = std::str::from_utf8(line).map_err(|_| Mistake::NotText)?;
    read_text(text)
}
