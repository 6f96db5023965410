// A question in words: a curve, an arithmetic and an input, as `exp two-step 0x3f800000` or `exp2 fused 1.5`.

#![tactic(auto)]

mod names;
mod pair;
mod pattern;

ghost use Rattle.std.specs.Prelude.{◌≡◌};
ghost use Rattle.query.specs.Meaning.{value_of};

pub use names::{ArithmeticName, UnknownArithmetic};
pub use pair::{Pair, UnknownName};
pub use pattern::read_pattern;

#[derive(Clone, Copy, Debug, PartialEq)]
pub struct Query {
    pub pair: Pair,
    pub x: f32,
}

impl Query {
    // The value that is asked for.
    pub fn answer(self) -> f32
        ensures { result ≡ value_of self.pair self.x }
    {
        self.pair.value(self.x)
    }
}
