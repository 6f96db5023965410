// The exponential curves on f32, each under a given arithmetic.

#![tactic(auto)]

pub mod exp10f;
pub mod exp2f;
pub mod expf;
pub mod expm1f;
pub mod polyeval;
mod power;
mod rows;
mod tables;

ghost use Rattle.std.specs.Prelude.{◌≡◌, Float};
ghost use Rattle.arithmetic.specs.Arithmetic.{Arithmetic};
ghost use Rattle.curves.specs.Examples.{Examples};

use arithmetic::ExpfBackend;

// A curve, by its limit patterns and by what its value is under an arithmetic.
pub trait Curve {
    // from this pattern on a negative input gives the lowest value
    const ZERO_LIMIT: u32;

    // from this pattern on a positive input gives infinity
    const OVERFLOW_LIMIT: u32;

    // up to this pattern, or below it, with no sign, the input is as good as zero
    const NEAR_ONE_LIMIT: u32;

    ghost curve: { Arithmetic → Float → Float };

    fn value<B: ExpfBackend>(arith: &B, x: f32) -> f32
        ensures { result ≡ curve (B.ExpfBackend.meaning arith.now) x };
}

// Values and splits that follow from the definitions alone, under both of our arithmetics.
pub fn examples_hold()
    ensures { Examples }
{}
