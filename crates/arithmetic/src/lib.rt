// An arithmetic: fused or two-step multiply-add and rounding to a whole number, with its law.

#![tactic(auto)]

ghost use Rattle.std.specs.Prelude.{◌≡◌, ℕ, false, pos, refl};
ghost use Rattle.arithmetic.specs.Arithmetic.{Arithmetic, Lawful, MulAdd, Nearest, TwoOperations, FusedInside, generic, fusing, fused_within, two_step, within};
ghost use Rattle.rounding.specs.Operations.{TiesToAway};
ghost use Rattle.std.specs.Float.Ieee.{minus};
ghost use Rattle.std.specs.Float.{fin, binary32, binary64};
ghost use Rattle.arithmetic.specs.Kept.{generic_lawful, fusing_lawful};

use num_traits::Float;

// Four operations, each a fixed function of its arguments. None refuses.
// They are not one pair over a type parameter: the project's rules name these four.
pub trait ExpfBackend {
    ghost meaning: { Self → Arithmetic };

    fn fmaf(&self, x: f32, y: f32, z: f32) -> f32
        ensures value { result ≡ (meaning self.now).fmaf x y z }
        ensures law_kept { MulAdd binary32 60 x y z result };

    fn fma(&self, x: f64, y: f64, z: f64) -> f64
        ensures value { result ≡ (meaning self.now).fma x y z }
        ensures law_kept { MulAdd binary64 400 x y z result };

    fn roundf(&self, x: f32) -> f32
        ensures value { result ≡ (meaning self.now).roundf x }
        ensures law_kept { Nearest binary32 x result };

    fn round(&self, x: f64) -> f64
        ensures value { result ≡ (meaning self.now).round x }
        ensures law_kept { Nearest binary64 x result };

    ghost lawful: { (b : Self) → Lawful (meaning b) };
}

// The product rounded, and then the sum.
fn two_step<T: Float>(x: T, y: T, z: T) -> T
    ensures { T.float result ≡ two_step T.format (T.float x) (T.float y) (T.float z) }
{
    x * y + z
}

// Two steps everywhere: the product is rounded, and then the sum. Where an impl has a clause of its own, `ieee`, it writes the trait's out too: its clauses take their place,
// and a name for all of them would be no plainer.
#[derive(Clone, Copy)]
pub struct GenericExpfBackend {}

#[tactic(auto, using(crate::specs::Away::rounds_away, crate::proofs::Standard::ties_to_away))]
impl ExpfBackend for GenericExpfBackend {
    ghost meaning = { λ _. generic };

    ghost lawful = { λ b. generic_lawful };

    fn fmaf(&self, x: f32, y: f32, z: f32) -> f32
        ensures value { result ≡ generic.fmaf x y z }
        ensures law_kept { MulAdd binary32 60 x y z result }
        ensures ieee { TwoOperations binary32 x y z result }
    {
        two_step::<f32>(x, y, z)
    }

    fn fma(&self, x: f64, y: f64, z: f64) -> f64
        ensures value { result ≡ generic.fma x y z }
        ensures law_kept { MulAdd binary64 400 x y z result }
        ensures ieee { TwoOperations binary64 x y z result }
    {
        two_step::<f64>(x, y, z)
    }

    fn roundf(&self, x: f32) -> f32
        ensures value { result ≡ generic.roundf x }
        ensures law_kept { Nearest binary32 x result }
        ensures ieee { TiesToAway binary32 x result }
    {
        fast::round::<f32>(x)
    }

    fn round(&self, x: f64) -> f64
        ensures value { result ≡ generic.round x }
        ensures law_kept { Nearest binary64 x result }
        ensures ieee { TiesToAway binary64 x result }
    {
        fast::round::<f64>(x)
    }
}

// A float with the range of the law: magnitudes from 2^-range to 2^range.
trait Ranged: Float {
    const LOW: Self;

    const HIGH: Self;

    ghost LOW: { Self };

    ghost HIGH: { Self };

    ghost range: { ℕ };

    ghost low_law: { Self.float LOW ≡ fin false 1 (minus 0 range) };

    ghost high_law: { Self.float HIGH ≡ fin false 1 (pos range) };
}

impl Ranged for f32 {
    const LOW: f32 = 8.673617379884035e-19;

    const HIGH: f32 = 1.152921504606847e18;

    ghost LOW = { fin false 1 (minus 0 60) };

    ghost HIGH = { fin false 1 (pos 60) };

    ghost range = { 60 };

    ghost low_law = { refl };

    ghost high_law = { refl };
}

impl Ranged for f64 {
    const LOW: f64 = 3.8725919148493183e-121;

    const HIGH: f64 = 2.5822498780869086e120;

    ghost LOW = { fin false 1 (minus 0 400) };

    ghost HIGH = { fin false 1 (pos 400) };

    ghost range = { 400 };

    ghost low_law = { refl };

    ghost high_law = { refl };
}

// Whether x is zero or of a magnitude in the range.
fn within<T: Ranged>(x: T) -> bool
    ensures { result ≡ within T.range (T.float x) }
{
    let a = x.abs();
    (a == T::zero()) | ((T::LOW <= a) & (a <= T::HIGH))
}

// Rounded once where all three are in range, and two steps elsewhere.
fn fused<T: Ranged>(x: T, y: T, z: T) -> T
    ensures { T.float result ≡ fused_within T.format T.range (T.float x) (T.float y) (T.float z) }
{
    if within(x) && within(y) && within(z) {
        x.mul_add(y, z)
    } else {
        two_step(x, y, z)
    }
}

// Rounds once inside the ranges of the law, and takes two steps outside them.
#[derive(Clone, Copy)]
pub struct FmaBackend {}

#[tactic(auto, using(crate::specs::Kept::once_within, crate::proofs::Standard::fused_inside))]
impl ExpfBackend for FmaBackend {
    ghost meaning = { λ _. fusing };

    ghost lawful = { λ b. fusing_lawful };

    fn fmaf(&self, x: f32, y: f32, z: f32) -> f32
        ensures value { result ≡ fusing.fmaf x y z }
        ensures law_kept { MulAdd binary32 60 x y z result }
        ensures ieee { FusedInside binary32 60 x y z result }
    {
        fused::<f32>(x, y, z)
    }

    fn fma(&self, x: f64, y: f64, z: f64) -> f64
        ensures value { result ≡ fusing.fma x y z }
        ensures law_kept { MulAdd binary64 400 x y z result }
        ensures ieee { FusedInside binary64 400 x y z result }
    {
        fused::<f64>(x, y, z)
    }

    fn roundf(&self, x: f32) -> f32
        ensures value { result ≡ fusing.roundf x }
        ensures law_kept { Nearest binary32 x result }
        ensures ieee { TiesToAway binary32 x result }
    {
        GenericExpfBackend {}.roundf(x)
    }

    fn round(&self, x: f64) -> f64
        ensures value { result ≡ fusing.round x }
        ensures law_kept { Nearest binary64 x result }
        ensures ieee { TiesToAway binary64 x result }
    {
        GenericExpfBackend {}.round(x)
    }
}
