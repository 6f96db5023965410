// The four numbers that a card's bytes spell, the most significant bit first.
ghost use Rattle.std.specs.Prelude.{MatchResult};
ghost use Rattle.cards.specs.Format.{Room, Spell};

use crate::card::NoRoom;

// Operation 2 bits, code 2, peg 12, value 32: plain numbers, as the format has them. What they mean is a `Card`.
#[derive(Clone, Copy)]
pub(crate) struct Fields {
    pub(crate) operation: u8,
    pub(crate) code: u8,
    pub(crate) peg: u16,
    pub(crate) value: u32,
}

// The numbers that six bytes spell.
impl From<[u8; 6]> for Fields {
    ghost from_gives = { Spell };

    fn from(bytes: [u8; 6]) -> Fields {
        let [a, b, c, d, e, f] = bytes;
        Fields {
            operation: a >> 6,
            code: (a >> 4) & 3,
            peg: u16::from_be_bytes([a & 15, b]),
            value: u32::from_be_bytes([c, d, e, f]),
        }
    }
}

// The bytes that spell the numbers, where each fits its bits.
impl TryFrom<Fields> for [u8; 6] {
    type Error = NoRoom;

    ghost try_from_gives = { λ fields r. MatchResult r (λ bytes. Spell bytes fields) (λ _. Room fields → ⊥) };

    fn try_from(fields: Fields) -> Result<[u8; 6], NoRoom> {
        let Fields {
            operation,
            code,
            peg,
            value,
        } = fields;
        if operation > 3 || code > 3 || peg > 4095 {
            return Err(NoRoom);
        }
        let [high, low] = peg.to_be_bytes();
        let [c, d, e, f] = value.to_be_bytes();
        Ok([(operation << 6) | (code << 4) | high, low, c, d, e, f])
    }
}
