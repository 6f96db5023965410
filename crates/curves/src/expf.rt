// exp: x is split as k / 128 + lo, and e^x is e^(k / 128), by two tables, times a polynomial of lo.
ghost use Rattle.std.specs.Prelude.{◌≡◌, ◌<◌};
ghost use Rattle.curves.specs.Tables.{table_exp_m1, table_exp_m2};
ghost use Rattle.curves.specs.Steps.{row};
ghost use Rattle.curves.specs.Exp.{k, row_of_whole, row_of_rest, exp_poly, exp_tables_value, exp_value, ExpReaches};
ghost use Rattle.curves.specs.Split.{InRows, ExpSplits};

use crate::Curve;
use crate::polyeval::polyeval;
use crate::rows::{ExpRest, ExpWhole, Table};
use arithmetic::ExpfBackend;
use fast::{narrow, to_i32};
use std::num::f32_to_f64_with_nan;

// The rows of the two tables: the whole part and the remainder of (k + 104 * 128) / 128.
fn rows(k: i32) -> (usize, usize)
    requires { InRows k }
    ensures whole { result.0 ≡ row_of_whole k }
    ensures rest { result.1 ≡ row_of_rest k }
    ensures whole_bound { result.0 < 207 }
    ensures rest_bound { result.1 < 128 }
{
    let at = k + (104 << 7);
    ((at >> 7) as usize, (at & 0x7f) as usize)
}

// An x that no band before the tables holds.
pub(crate) struct Reaching {
    pub(crate) x: f32,
    ghost reaches: { ∥ ExpReaches x ∥₁ },
}

// e^x as a product: the polynomial of lo, and the two rows.
pub(crate) struct ExpFactors {
    pub(crate) p: f64,
    pub(crate) hi: f64,
    pub(crate) mid: f64,
}

pub(crate) fn factors<B: ExpfBackend>(arith: &B, input: Reaching) -> ExpFactors
    ensures p_value { result.p ≡ exp_poly (B.ExpfBackend.meaning arith.now) input.x }
    ensures hi_value { result.hi ≡ row table_exp_m1 (row_of_whole (k (B.ExpfBackend.meaning arith.now) input.x)) }
    ensures mid_value { result.mid ≡ row table_exp_m2 (row_of_rest (k (B.ExpfBackend.meaning arith.now) input.x)) }
{
    const COEFFICIENTS: [f64; 5] = [
        1.0,
        // 0x3feffffffffff777
        0.9999999999997574,
        // 0x3fe000000000071c
        0.5000000000002021,
        // 0x3fc555566668e5e7
        0.16666679382778612,
        // 0x3fa55555555ef243
        0.041666666671038154,
    ];
    let Reaching { x } = input;
    let kf = arith.roundf(x * 128.0);
    let lo = f32_to_f64_with_nan(arith.fmaf(kf, -0.0078125, x));
    let (whole, rest) = rows(to_i32(f32_to_f64_with_nan(kf)));
    ExpFactors {
        p: polyeval(arith, lo, COEFFICIENTS),
        hi: ExpWhole::row(whole),
        mid: ExpRest::row(rest),
    }
}

fn exp_tables<B: ExpfBackend>(arith: &B, input: Reaching) -> f32
    ensures { result ≡ exp_tables_value (B.ExpfBackend.meaning arith.now) input.x }
{
    let ExpFactors { p, hi, mid } = factors(arith, input);
    narrow(p * hi * mid)
}

#[derive(Clone, Copy)]
pub struct Exp {}

impl Curve for Exp {
    const ZERO_LIMIT: u32 = 0xc2cf_f1b5;

    const OVERFLOW_LIMIT: u32 = 0x42b2_0000;

    const NEAR_ONE_LIMIT: u32 = 0x3280_0000;

    ghost curve = { exp_value };

    fn value<B: ExpfBackend>(arith: &B, x: f32) -> f32 {
        if x.is_nan() {
            return f32::NAN;
        }
        let p = x.to_bits();
        if (p & 0x7fff_ffff) <= Self::NEAR_ONE_LIMIT {
            1.0
        } else if p >= Self::ZERO_LIMIT {
            0.0
        } else if p < 0x8000_0000 && p >= Self::OVERFLOW_LIMIT {
            f32::INFINITY
        } else {
            exp_tables(arith, Reaching { x })
        }
    }
}

// Every x that reaches the tables is split exactly, and alike, under every lawful arithmetic.
pub fn exp_splits()
    ensures { ExpSplits }
{}
