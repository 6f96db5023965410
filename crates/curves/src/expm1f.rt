// expm1: e^x - 1, by a polynomial near zero, and elsewhere by exp's split, rows and polynomial less one.
ghost use Rattle.std.specs.Prelude.{◌≡◌};
ghost use Rattle.curves.specs.Expm1.{expm1_small_value, expm1_tables_value, expm1_value};

use crate::Curve;
use crate::expf::{ExpFactors, Reaching, factors};
use crate::polyeval::polyeval;
use arithmetic::ExpfBackend;
use fast::narrow;
use std::num::f32_to_f64_with_nan;

fn expm1_small<B: ExpfBackend>(arith: &B, x: f32) -> f32
    ensures { result ≡ expm1_small_value (B.ExpfBackend.meaning arith.now) x }
{
    const COEFFICIENTS: [f64; 7] = [
        // 0x3fe0000000000000
        0.5,
        // 0x3fc55555555557dd
        0.16666666666668464,
        // 0x3fa55555555552fa
        0.04166666666666248,
        // 0x3f8111110fcd58b7
        0.008333333296530616,
        // 0x3f56c16c1717660b
        0.0013888888901106868,
        // 0x3f2a0241f0006d62
        0.00019843153859331735,
        // 0x3efa01e3f8d3c060
        2.480257494580395e-05,
    ];
    let xd = f32_to_f64_with_nan(x);
    let p = polyeval(arith, xd, COEFFICIENTS);
    narrow(arith.fma(p, xd * xd, xd))
}

// Another last step than exp's: what the two share is `factors`.
fn expm1_tables<B: ExpfBackend>(arith: &B, input: Reaching) -> f32
    ensures { result ≡ expm1_tables_value (B.ExpfBackend.meaning arith.now) input.x }
{
    let ExpFactors { p, hi, mid } = factors(arith, input);
    narrow(arith.fma(p * hi, mid, -1.0))
}

#[derive(Clone, Copy)]
pub struct Expm1 {}

impl Expm1 {
    // 0xbf800000
    const LOWEST: f32 = -1.0;

    // below this pattern, with no sign, a polynomial serves
    const SMALL_LIMIT: u32 = 0x3d80_0000;
}

impl Curve for Expm1 {
    // the lowest value is -1
    const ZERO_LIMIT: u32 = 0xc18a_a123;

    const OVERFLOW_LIMIT: u32 = 0x42b2_0000;

    const NEAR_ONE_LIMIT: u32 = 0x3300_0000;

    ghost curve = { expm1_value };

    fn value<B: ExpfBackend>(arith: &B, x: f32) -> f32 {
        if x.is_nan() {
            return f32::NAN;
        }
        let p = x.to_bits();
        let size = p & 0x7fff_ffff;
        if size < Self::NEAR_ONE_LIMIT {
            x
        } else if p >= Self::ZERO_LIMIT {
            Expm1::LOWEST
        } else if p < 0x8000_0000 && p >= Self::OVERFLOW_LIMIT {
            f32::INFINITY
        } else if size < Expm1::SMALL_LIMIT {
            expm1_small(arith, x)
        } else {
            expm1_tables(arith, Reaching { x })
        }
    }
}
