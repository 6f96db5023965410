// A stream of bytes as cards: each six are one, and bytes left over at the end are one too.
ghost use Rattle.cards.specs.Streams.{TakesAll, StreamsJoin};
ghost use Rattle.cards.specs.Told.{counts_of};

use crate::counts::OpenRun;
use crate::reply::reply;
use arithmetic::ExpfBackend;
use sheet::peg::Peg;

pub const CARD_SIZE: usize = 6;

impl OpenRun {
    // Plays the cards of some bytes and puts each reply into a slot: how many there were.
    // With fewer slots than cards it plays none: None, since there is no other reason. The slots are the caller's:
    // with a Vec a run could fail for want of memory, which the rules do not have.
    pub fn take_all<B: ExpfBackend>(
        &mut self,
        bytes: &[u8],
        sheet: &mut [Peg],
        arith: &B,
        replies: &mut [[u8; 5]],
    ) -> Option<usize>
        ensures { TakesAll (B.ExpfBackend.meaning arith.now) bytes.now (counts_of self.old) sheet.old replies.old result sheet.new (counts_of self.new) replies.new }
    {
        let cards = bytes.chunks(CARD_SIZE);
        let count = cards.len();
        if count > replies.len() {
            return None;
        }
        // By index; tried: of what an `iter_mut` in a `zip` lends out nothing is known after the loop.
        for (at, card) in cards.enumerate() {
            replies[at] = reply(self.take(card, sheet, arith));
        }
        Some(count)
    }
}

// A stream may be cut between two cards.
pub fn streams_join()
    ensures { StreamsJoin }
{}
