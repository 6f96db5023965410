// exp2: x is split as k / 64 + lo, and 2^x is 2^(k / 64), by a table and a whole power of two, times a polynomial of lo.
ghost use Rattle.std.specs.Prelude.{◌≡◌};
ghost use Rattle.curves.specs.Exp2.{exp2_small_value, exp2_table_value, exp2_value};
ghost use Rattle.curves.specs.Split.{Exp2Splits};

use crate::Curve;
use crate::polyeval::{polyeval6, times_power};
use crate::power::{power_of_two, whole_power};
use crate::rows::{TwoIn64, scaled_row};
use arithmetic::ExpfBackend;
use fast::{narrow, to_i32};
use std::num::{f32_to_f64_with_nan, f64_from_bits_with_nan};

// Another polynomial than exp10's: what the two share is one line.
fn exp2_small<B: ExpfBackend>(arith: &B, x: f32) -> f32
    ensures { result ≡ exp2_small_value (B.ExpfBackend.meaning arith.now) x }
{
    const COEFFICIENTS: [f64; 6] = [
        // 0x3fe62e42fefa39f3
        0.6931471805599457,
        // 0x3fcebfbdff82c57b
        0.24022650695910017,
        // 0x3fac6b08d6f2d7aa
        0.05550410865673368,
        // 0x3f83b2ab6fc92f5d
        0.009618129109319968,
        // 0x3f55d897cfe27125
        0.0013333780803242515,
        // 0x3f243090e61e6af1
        0.00015403527055187592,
    ];
    let xd = f32_to_f64_with_nan(x);
    let p = polyeval6(arith, xd, COEFFICIENTS);
    narrow(arith.fma(p, xd, 1.0))
}

// As exp10's but for the reduction: what the two share is `times_power`.
fn exp2_table<B: ExpfBackend>(arith: &B, x: f32) -> f32
    ensures { result ≡ exp2_table_value (B.ExpfBackend.meaning arith.now) x }
{
    const COEFFICIENTS: [f64; 5] = [
        // 0x3fe62e42fefa39ef
        0.6931471805599453,
        // 0x3fcebfbdff8131c4
        0.2402265069562316,
        // 0x3fac6b08d7061695
        0.05550410866548564,
        // 0x3f83b2b1bee74b2a
        0.009618176115429106,
        // 0x3f55d88091198529
        0.0013333564314950786,
    ];
    let xd = f32_to_f64_with_nan(x);
    let kd = arith.round(xd * 64.0);
    let lo = arith.fma(-0.015625, kd, xd);
    let mh = f64_from_bits_with_nan(scaled_row::<TwoIn64, 6>(to_i32(kd)));
    narrow(times_power(arith, lo, mh, COEFFICIENTS))
}

#[derive(Clone, Copy)]
pub struct Exp2 {}

impl Exp2 {
    // -149: above this pattern and below the zero limit the value is the smallest f32 above 0
    const SMALLEST_LIMIT: u32 = 0xc315_0000;

    // 2^-149, 0x00000001
    const SMALLEST: f32 = 1e-45;

    // up to this pattern, with no sign, a polynomial serves
    const SMALL_LIMIT: u32 = 0x3d00_0000;
}

impl Curve for Exp2 {
    const ZERO_LIMIT: u32 = 0xc316_0000;

    const OVERFLOW_LIMIT: u32 = 0x4300_0000;

    const NEAR_ONE_LIMIT: u32 = 0x3280_0000;

    ghost curve = { exp2_value };

    fn value<B: ExpfBackend>(arith: &B, x: f32) -> f32 {
        if x.is_nan() {
            return f32::NAN;
        }
        if let Some(k) = whole_power(x) {
            return power_of_two(k);
        }
        let p = x.to_bits();
        let size = p & 0x7fff_ffff;
        if size < Self::NEAR_ONE_LIMIT {
            1.0
        } else if p > Exp2::SMALLEST_LIMIT && p < Self::ZERO_LIMIT {
            Exp2::SMALLEST
        } else if p >= Self::ZERO_LIMIT {
            0.0
        } else if p < 0x8000_0000 && p >= Self::OVERFLOW_LIMIT {
            f32::INFINITY
        } else if size <= Exp2::SMALL_LIMIT {
            exp2_small(arith, x)
        } else {
            exp2_table(arith, x)
        }
    }
}

// Every x that reaches the table is split exactly, and alike, under every lawful arithmetic.
pub fn exp2_splits()
    ensures { Exp2Splits }
{}
