// An open run takes cards with a sheet and an arithmetic, and counts them.
ghost use Rattle.std.specs.Prelude.{◌≡◌, ◌<◌};
ghost use Rattle.arithmetic.specs.Arithmetic.{Arithmetic};
ghost use Rattle.sheet.specs.Lists.{call_of as called};
ghost use Rattle.cards.specs.Format.{count_bytes};
ghost use Rattle.cards.specs.Told.{counts_of, closed_of};
ghost use Rattle.cards.specs.Runs.{Takes, RunsAddUp, call_of, none, counted, most_cards};

use crate::card::Card;
use crate::counts::{ClosedRun, Counts, OpenRun};
use arithmetic::ExpfBackend;
use sheet::fault::Fault;
use sheet::peg::Peg;
use sheet::replay::{Command, perform};
use std::num::f32_from_bits_with_nan;

// The call that the card names.
impl From<Card> for Command {
    ghost from_gives = { λ card command. (a : Arithmetic) → called a command ≡ call_of a card };

    fn from(card: Card) -> Command {
        match card {
            Card::Enter { code, peg, value } => Command::Enter {
                peg,
                code,
                input: f32_from_bits_with_nan(value),
            },
            Card::Work { first, count } => Command::Work { first, count },
            Card::Read { peg } => Command::Read { peg },
            Card::Clear { peg } => Command::Clear { peg },
        }
    }
}

impl Counts {
    // The counts after one more card: what it said, and its answer.
    fn counted(self, card: Result<Card, Fault>, answer: Result<u32, Fault>) -> Counts
        requires taken { self.taken < most_cards }
        requires refused { self.refused < most_cards }
        ensures { result ≡ counted self card answer }
    {
        let worked = match (card, answer) {
            (Ok(Card::Work { .. }), Ok(pegs)) => pegs,
            _ => 0,
        };
        Counts {
            taken: self.taken + 1,
            refused: self.refused + u16::from(answer.is_err()),
            worked: self.worked.saturating_add(worked),
        }
    }
}

impl OpenRun {
    pub const MOST_CARDS: u16 = 65535;

    pub fn open() -> OpenRun
        ensures { counts_of result ≡ none }
    {
        OpenRun {
            counts: Counts::default(),
        }
    }

    // Plays a card on a sheet: its answer, or why it is refused. Only a work needs the arithmetic, so that it stays a parameter beside the sheet.
    pub fn take<B: ExpfBackend>(
        &mut self,
        card: &[u8],
        sheet: &mut [Peg],
        arith: &B,
    ) -> Result<u32, Fault>
        ensures { Takes (B.ExpfBackend.meaning arith.now) card.now (counts_of self.old) sheet.old result sheet.new (counts_of self.new) }
    {
        if self.counts.taken == OpenRun::MOST_CARDS {
            return Err(Fault::RunFull);
        }
        let card = Card::try_from(card);
        // A match; `and_then` was tried: of what its closure does to the sheet nothing is known after it.
        let answer = match card {
            Ok(card) => perform(sheet, card.into(), arith),
            Err(fault) => Err(fault),
        };
        self.counts = self.counts.counted(card, answer);
        answer
    }

    // Ends the run.
    pub fn close(self) -> ClosedRun
        ensures { closed_of result ≡ counts_of self }
    {
        let OpenRun { counts } = self;
        ClosedRun { counts }
    }
}

impl ClosedRun {
    // Cards taken, cards refused and pegs worked, the most significant byte first. By this name, since the rules say that a run tells them.
    pub fn told(self) -> [u8; 8]
        ensures { result ≡ count_bytes (closed_of self) }
    {
        let [a, b] = self.counts.taken.to_be_bytes();
        let [c, d] = self.counts.refused.to_be_bytes();
        let [e, f, g, h] = self.counts.worked.to_be_bytes();
        [a, b, c, d, e, f, g, h]
    }
}

// The counts of a run are those of the cards that it was given.
pub fn runs_add_up()
    ensures { RunsAddUp }
{}
