// The digest: words folded into 64 bits, by blocks of 2^24 patterns.
ghost use Rattle.std.specs.Prelude.{◌≡◌, ◌+◌, ◌*◌, ◌/◌, ◌^◌, ◌<◌, MatchOption};
ghost use Rattle.query.specs.Meaning.{answer, value_of};
ghost use Rattle.digest.specs.Digest.{mixed, joined, block, whole};

use query::Pair;

const START: u64 = 0xcbf2_9ce4_8422_2325;

const FACTOR: u64 = 0x100_0000_01b3;

pub const BLOCKS: u32 = 256;

// The last place in a block.
const LAST: u32 = 0xff_ffff;

// h after one word more.
fn mix(h: u64, word: u32) -> u64
    ensures { result ≡ mixed h word }
{
    (h ^ u64::from(word)).wrapping_mul(FACTOR)
}

// h after the two halves of a block's digest, the upper one first.
fn join(h: u64, digest: u64) -> u64
    ensures { result ≡ joined h digest }
{
    mix(mix(h, (digest >> 32) as u32), (digest & 0xffff_ffff) as u32)
}

// Which patterns of a block are taken: every `step`-th, from the first on.
#[derive(Clone, Copy)]
pub struct Every {
    step: u32,
    ghost positive: { 0 < step },
}

impl Every {
    // Every pattern.
    pub fn all() -> Every
        ensures { result.step ≡ 1 }
    {
        Every { step: 1 }
    }

    pub fn new(step: u32) -> Option<Every>
        ensures { MatchOption result (step ≡ 0) (λ e. e.step ≡ step) }
    {
        if step == 0 {
            None
        } else {
            Some(Every { step })
        }
    }

    // How many patterns of a block are taken.
    fn count(self) -> u32
        ensures { result ≡ 16777215 / self.step + 1 }
    {
        LAST / self.step + 1
    }
}

// The digest of the pair's answers in a block.
pub(crate) fn block_digest(pair: Pair, every: Every, number: u32) -> u64
    requires { number < 256 }
    ensures { result ≡ block (answer (value_of pair)) every.step (16777215 / every.step + 1) (number * 2 ^ 24) }
{
    let first = number << 24;
    (0..every.count())
        .map(|i| first + i * every.step)
        .fold(START, |h, bits| mix(h, pair.answer_at(bits)))
}

// The digest of the pair's answers in all blocks.
pub fn whole_digest(pair: Pair, every: Every) -> u64
    ensures { result ≡ whole (answer (value_of pair)) every.step (16777215 / every.step + 1) }
{
    (0..BLOCKS).fold(
        START,
        |h, number| join(h, block_digest(pair, every, number)),
    )
}
