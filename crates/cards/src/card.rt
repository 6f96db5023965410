// A card: what it says, from six bytes and back.
ghost use Rattle.std.specs.Prelude.{◌≡◌, Some, Ok, MatchResult};
ghost use Rattle.cards.specs.Format.{unpacked, fields_of, Packable, no_room_words};

use crate::fields::Fields;
use sheet::fault::Fault;
use std::error::Error;
use std::fmt;

// What a card says. A code is a number, as the format and the call that it names have it.
#[derive(Clone, Copy, Debug, PartialEq, Eq)]
pub enum Card {
    Enter { code: u8, peg: u16, value: u32 },
    Work { first: u16, count: u32 },
    Read { peg: u16 },
    Clear { peg: u16 },
}

// A card that says a number for which its field has no room.
#[derive(Clone, Copy, Debug, PartialEq, Eq)]
pub struct NoRoom;

impl fmt::Display for NoRoom {
    ghost output = { λ _. Some no_room_words };

    fn fmt<W: fmt::Write>(&self, f: &mut fmt::Formatter<W>) -> fmt::Result {
        f.write_str("a card has 2 bits for a code and 12 for a peg")
    }
}

impl Error for NoRoom {}

// What the bytes say. A field that the operation does not use has to be 0.
impl TryFrom<&[u8]> for Card {
    type Error = Fault;

    ghost try_from_gives = { λ bytes r. r ≡ unpacked bytes.now };

    fn try_from(bytes: &[u8]) -> Result<Card, Fault> {
        let bytes = <[u8; 6]>::try_from(bytes).map_err(|_| Fault::CardLength)?;
        let Fields {
            operation,
            code,
            peg,
            value,
        } = Fields::from(bytes);
        match (operation, code, value) {
            (0, _, _) => Ok(Card::Enter { code, peg, value }),
            (1, 0, _) => Ok(Card::Work {
                first: peg,
                count: value,
            }),
            (2, 0, 0) => Ok(Card::Read { peg }),
            (3, 0, 0) => Ok(Card::Clear { peg }),
            _ => Err(Fault::UnusedField),
        }
    }
}

// The numbers of a card: operation 0 enters, 1 works, 2 reads and 3 clears.
impl From<Card> for Fields {
    ghost from_gives = { λ card fields. fields ≡ fields_of card };

    fn from(card: Card) -> Fields {
        match card {
            Card::Enter { code, peg, value } => Fields {
                operation: 0,
                code,
                peg,
                value,
            },
            Card::Work { first, count } => Fields {
                operation: 1,
                code: 0,
                peg: first,
                value: count,
            },
            Card::Read { peg } => Fields {
                operation: 2,
                code: 0,
                peg,
                value: 0,
            },
            Card::Clear { peg } => Fields {
                operation: 3,
                code: 0,
                peg,
                value: 0,
            },
        }
    }
}

// The bytes of a card.
impl TryFrom<Card> for [u8; 6] {
    type Error = NoRoom;

    ghost try_from_gives = { λ card r. MatchResult r (λ bytes. Packable card × (unpacked bytes ≡ Ok card)) (λ _. Packable card → ⊥) };

    fn try_from(card: Card) -> Result<[u8; 6], NoRoom> {
        <[u8; 6]>::try_from(Fields::from(card))
    }
}
