// One line of the program's input: what it asks, or what is wrong with it.
ghost use Rattle.std.specs.Prelude.{◌≡◌};
ghost use Rattle.curve.specs.declared.line.Mistake.TheVariants.{Name};

use query::{Pair, Query, UnknownName, read_pattern};
use std::fmt;
use std::num::f32_from_bits_with_nan;

#[derive(Clone, Copy)]
pub enum Mistake<'a> {
    NotText,
    Words(usize),
    Name(UnknownName<'a>),
    UnknownNumber(&'a str),
}

impl fmt::Display for Mistake<'_> {
    fn fmt<W: fmt::Write>(&self, f: &mut fmt::Formatter<W>) -> fmt::Result {
        match self {
            Mistake::NotText => write!(f, "not text: a line is CURVE ARITHMETIC X"),
            Mistake::Words(n) => write!(f, "{n} words: a line has three, CURVE ARITHMETIC X"),
            Mistake::Name(name) => write!(f, "{name}"),
            Mistake::UnknownNumber(w) => write!(
                f,
                "no number `{w}`: a pattern of up to eight hexadecimal digits after 0x, or a decimal number"
            ),
        }
    }
}

impl<'a> From<UnknownName<'a>> for Mistake<'a> {
    ghost from_gives = { λ name m. m ≡ Name name };

    fn from(name: UnknownName<'a>) -> Self {
        Self::Name(name)
    }
}

// A number: a pattern after 0x, or a decimal.
fn read_number(word: &str) -> Option<f32> {
    match read_pattern(word) {
        Some(bits) => Some(f32_from_bits_with_nan(bits)),
        None => word.parse().ok(),
    }
}

fn read_query(line: &str) -> Result<Query, Mistake<'_>> {
    let mut words = line.split_whitespace();
    let (Some(curve), Some(arithmetic), Some(number), None) = (
        words.next(),
        words.next(),
        words.next(),
        words.next(),
    ) else {
        return Err(Mistake::Words(line.split_whitespace().count()));
    };
    Ok(Query {
        pair: Pair::from_words(curve, arithmetic)?,
        x: read_number(number).ok_or(Mistake::UnknownNumber(number))?,
    })
}

// The question on a line of bytes. `replay` has its own: what reads either line differs, and the rest is two lines.
pub fn read_bytes(line: &[u8]) -> Result<Query, Mistake<'_>> {
    let text = std::str::from_utf8(line).map_err(|_| Mistake::NotText)?;
    read_query(text)
}
