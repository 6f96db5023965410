// A third arithmetic, for tests: the law admits one that is not ours.

#![tactic(auto)]

ghost use Rattle.std.specs.Prelude.{◌≡◌, true, false, cond, pos, refl};
ghost use Rattle.std.proofs.Common.{inl, inr};
ghost use Rattle.std.specs.Float.Ieee.{lt};
ghost use Rattle.std.specs.Float.{fin, float_mul_add};
ghost use Rattle.arithmetic.specs.Arithmetic.{OneOrTwo, two_step};
ghost use Rattle.foreign.specs.Choosing.{by_order, choosing, plain_zero};
ghost use Rattle.foreign.specs.Lawful.{lawful_where};

use arithmetic::ExpfBackend;
use num_traits::Float;

// Once where the first factor is below the second, and two steps elsewhere.
fn by_order<T: Float>(x: T, y: T, z: T) -> T
    ensures { T.float result ≡ by_order T.format (T.float x) (T.float y) (T.float z) }
{
    if x < y { x.mul_add(y, z) } else { x * y + z }
}

// A float with 2^22, from which on nothing is rounded.
trait Limited: Float {
    const LIMIT: Self;

    ghost LIMIT: { Self };

    ghost limit_law: { Self.float LIMIT ≡ fin false 1 (pos 22) };
}

impl Limited for f32 {
    const LIMIT: f32 = 4194304.0;

    ghost LIMIT = { fin false 1 (pos 22) };

    ghost limit_law = { refl };
}

impl Limited for f64 {
    const LIMIT: f64 = 4194304.0;

    ghost LIMIT = { fin false 1 (pos 22) };

    ghost limit_law = { refl };
}

// Either zero gives +0, and from magnitude 2^22 on nothing is rounded.
fn plain<T: Limited>(x: T) -> T
    ensures { T.float result ≡ plain_zero T.format (T.float x) }
{
    if x == T::zero() {
        T::zero()
    } else if x.abs() < T::LIMIT {
        x.round()
    } else {
        x
    }
}

#[derive(Clone, Copy)]
pub struct ChoosingBackend {}

#[tactic(auto, using(crate::specs::Lawful::plain_zero_lem))]
impl ExpfBackend for ChoosingBackend {
    ghost meaning = { λ _. choosing };

    ghost lawful = { λ b. lawful_where (λ f x y z. elim (lt x y) as (λ v. OneOrTwo f x y z (cond v (float_mul_add f x y z) (two_step f x y z))) [ true ↦ inl refl | false ↦ inr refl ]) };

    fn fmaf(&self, x: f32, y: f32, z: f32) -> f32 {
        by_order(x, y, z)
    }

    fn fma(&self, x: f64, y: f64, z: f64) -> f64 {
        by_order(x, y, z)
    }

    fn roundf(&self, x: f32) -> f32 {
        plain(x)
    }

    fn round(&self, x: f64) -> f64 {
        plain(x)
    }
}

#[cfg(test)]
mod tests {
    use super::*;
    use arithmetic::GenericExpfBackend;
    use curves::Curve;
    use curves::exp2f::Exp2;
    use curves::exp10f::Exp10;
    use curves::expf::Exp;
    use curves::expm1f::Expm1;
    use std::num::{f32_from_bits_with_nan, f32_to_bits_with_nan};
    use std::process::Abort;

    // The figures of a curve under this arithmetic and the two-step one, over patterns spread over all of them.
    fn agrees<C: Curve>(rt: &impl Abort) {
        for k in 0..4099u32 {
            let x = f32_from_bits_with_nan(k.wrapping_mul(0x000f_fc0d));
            let here = f32_to_bits_with_nan(C::value(&ChoosingBackend {}, x));
            let there = f32_to_bits_with_nan(C::value(&GenericExpfBackend {}, x));
            assert_eq!(rt; here, there);
        }
    }

    #[test]
    fn exp_agrees(rt: HostRuntime) {
        agrees::<Exp>(&rt);
    }

    #[test]
    fn exp2_agrees(rt: HostRuntime) {
        agrees::<Exp2>(&rt);
    }

    #[test]
    fn exp10_agrees(rt: HostRuntime) {
        agrees::<Exp10>(&rt);
    }

    #[test]
    fn expm1_agrees(rt: HostRuntime) {
        agrees::<Expm1>(&rt);
    }
}
