// exp10: x is reduced to lo by whole multiples of log10 2 / 32, and 10^x is a power of two, by a table, times a polynomial of lo.
ghost use Rattle.std.specs.Prelude.{◌≡◌};
ghost use Rattle.curves.specs.Exp10.{hi, lo, exp10_near_one, exp10_small_value, exp10_table_value, exp10_value};
ghost use Rattle.curves.specs.Split.{Exp10Splits};

use crate::Curve;
use crate::polyeval::{polyeval, times_power};
use crate::rows::{TwoIn32, scaled_row};
use arithmetic::ExpfBackend;
use fast::{narrow, to_i32};
use std::num::{f32_to_f64_with_nan, f64_from_bits_with_nan};

// 10^x is hi 10^lo.
#[derive(Clone, Copy)]
pub struct ExpBReduc {
    pub hi: f64,
    pub lo: f64,
}

pub fn exp_b_range_reduc<B: ExpfBackend>(arith: &B, x: f32) -> ExpBReduc
    ensures hi_value { result.hi ≡ hi (B.ExpfBackend.meaning arith.now) x }
    ensures lo_value { result.lo ≡ lo (B.ExpfBackend.meaning arith.now) x }
{
    // 0x405a934f0979a371
    const LOG2_B: f64 = 106.30169903639559;
    // 0xbf834413509f8000
    const M_LOGB_2_HI: f64 = -0.009407187364502079;
    // 0x3ce80433b83b532a
    const M_LOGB_2_LO: f64 = 2.6663575990803458e-15;
    let xd = f32_to_f64_with_nan(x);
    let kd = arith.round(LOG2_B * xd);
    let first = arith.fma(kd, M_LOGB_2_HI, xd);
    ExpBReduc {
        hi: f64_from_bits_with_nan(scaled_row::<TwoIn32, 5>(to_i32(kd))),
        lo: arith.fma(kd, M_LOGB_2_LO, first),
    }
}

// Another polynomial than exp2's: what the two share is one line.
fn exp10_small<B: ExpfBackend>(arith: &B, x: f32) -> f32
    ensures { result ≡ exp10_small_value (B.ExpfBackend.meaning arith.now) x }
{
    const COEFFICIENTS: [f64; 7] = [
        // 0x40026bb1bbb55516
        2.302585092994046,
        // 0x40053524c73cfbf6
        2.6509490552411945,
        // 0x4000470591de0b07
        2.0346785922896546,
        // 0x3ff2bd760599f3a5
        1.17125513256108,
        // 0x3fe142a001511a6f
        0.5393829370230615,
        // 0x3fca7feffa781d53
        0.20702934007588655,
        // 0x3fb16e53492c0f0e
        0.0680896810190996,
    ];
    let xd = f32_to_f64_with_nan(x);
    let p = polyeval(arith, xd, COEFFICIENTS);
    narrow(arith.fma(p, xd, 1.0))
}

// As exp2's but for the reduction: what the two share is `times_power`.
fn exp10_table<B: ExpfBackend>(arith: &B, x: f32) -> f32
    ensures { result ≡ exp10_table_value (B.ExpfBackend.meaning arith.now) x }
{
    const COEFFICIENTS: [f64; 5] = [
        // 0x40026bb1bbb55515
        2.3025850929940455,
        // 0x40053524c73bd3ea
        2.650949055207538,
        // 0x4000470591dff149
        2.0346785923449358,
        // 0x3ff2bd7c0a9fbc4d
        1.1712608733175955,
        // 0x3fe1429e74a98f43
        0.539382198196542,
    ];
    let rr = exp_b_range_reduc(arith, x);
    narrow(times_power(arith, rr.lo, rr.hi, COEFFICIENTS))
}

#[derive(Clone, Copy)]
pub struct Exp10 {}

impl Exp10 {
    // up to this pattern, with no sign, a polynomial serves
    const SMALL_LIMIT: u32 = 0x3d00_0000;

    // from this pattern on 10^x is nearer to the f32 below 1 than to 1, up to the last one near one
    const BELOW_ONE_LIMIT: u32 = 0xb25e_5bd9;

    const BELOW_ONE_LAST: u32 = 0xb280_0000;

    // 0x3f7fffff
    const BELOW_ONE: f32 = 0.99999994;
}

impl Curve for Exp10 {
    const ZERO_LIMIT: u32 = 0xc234_9e36;

    const OVERFLOW_LIMIT: u32 = 0x421a_209b;

    const NEAR_ONE_LIMIT: u32 = 0x3280_0000;

    ghost curve = { exp10_value };

    fn value<B: ExpfBackend>(arith: &B, x: f32) -> f32 {
        if x.is_nan() {
            return f32::NAN;
        }
        let p = x.to_bits();
        let size = p & 0x7fff_ffff;
        if p < 0x8000_0000 && p >= Self::OVERFLOW_LIMIT {
            f32::INFINITY
        } else if p >= Self::ZERO_LIMIT {
            0.0
        } else if size <= Self::NEAR_ONE_LIMIT {
            if p >= Exp10::BELOW_ONE_LIMIT && p <= Exp10::BELOW_ONE_LAST {
                Exp10::BELOW_ONE
            } else {
                1.0
            }
        } else if size <= Exp10::SMALL_LIMIT {
            exp10_small(arith, x)
        } else {
            exp10_table(arith, x)
        }
    }
}

// Every x that reaches the table is reduced by the nearest k, the first step exactly, and to a small lo, under every lawful arithmetic.
pub fn exp10_splits()
    ensures { Exp10Splits }
{}
