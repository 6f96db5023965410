// Faster forms of slow steps: each gives what the plain form gives, for every argument.

#![tactic(auto)]

ghost use Rattle.std.specs.Prelude.{◌≡◌, ℕ, suc, ◌+◌, ◌-◌, ◌*◌, ◌<◌, ◌≤◌, IsTrue, pos, refl, to_bits, from_bits};
ghost use Rattle.std.specs.Float.Ieee.{prec, low, hid, top, fits, of_int, to_signed};
ghost use Rattle.std.specs.Float.{NotNanBits, round_to_format, float_round, binary32, binary64};
ghost use Rattle.fast.specs.Point.{Places};

use num_traits::Float;
use std::num::{
    f32_to_bits_with_nan, f64_to_bits_with_nan, nearest_f64_to_f32_with_nan, saturating_f64_to_i32,
};

// The f32 nearest to x. Where that is a normal number, by its pattern: 29 of the digits are dropped, and half of the last kept one goes to the even number.
#[tactic(auto, using(crate::proofs::Narrowing::no_nan, crate::proofs::Narrowing::by_pattern))]
pub fn narrow(x: f64) -> f32
    ensures { result ≡ round_to_format binary32 x }
{
    let b = f64_to_bits_with_nan(x);
    let a = b % 0x8000_0000_0000_0000;
    if 0x3810_0000_0000_0000 <= a && a < 0x47f0_0000_0000_0000 {
        let kept = (a + 0x0fff_ffff + a / 0x2000_0000 % 2) / 0x2000_0000 - 0x1_c000_0000;
        f32::from_bits((b / 0x8000_0000_0000_0000 * 0x8000_0000 + kept) as u32)
    } else {
        nearest_f64_to_f32_with_nan(x)
    }
}

// A float that is worked on by its pattern, which stands in the last bits of a u64. The constants are those of the format.
// Of this crate alone: f32 and f64 are all, and what two of its functions ask is asked of no caller.
pub(crate) trait Patterned: Float {
    // The sign's bit.
    const SIGN: u64;

    // The leading digit, which is not written.
    const LEADING: u64;

    // How many digits there are, that one too.
    const DIGITS: u64;

    // The patterns of 1/4, and of the first value above which there are only whole ones.
    const QUARTER: u64;

    const WHOLE: u64;

    ghost SIGN: { ℕ };

    ghost LEADING: { ℕ };

    ghost DIGITS: { ℕ };

    ghost QUARTER: { ℕ };

    ghost WHOLE: { ℕ };

    fn to_pattern(self) -> u64
        ensures value { result ≡ to_bits Self.format (Self.float self) }
        ensures bound { result < 2 * SIGN }
        ensures fits { IsTrue (fits Self.format (Self.float self)) };

    fn from_pattern(pattern: u64) -> Self
        requires bound { pattern < 2 * SIGN }
        requires not_nan { NotNanBits Self.format pattern }
        ensures { Self.float result ≡ from_bits Self.format pattern };

    // A whole number that has no more digits than the leading one and those that are written.
    fn from_whole(n: u64) -> Self
        requires { n ≤ LEADING }
        ensures { Self.float result ≡ of_int Self.format (pos n) };

    ghost sign_law: { SIGN ≡ top Self.format };

    ghost leading_law: { LEADING ≡ hid Self.format };

    ghost digits_law: { DIGITS ≡ prec Self.format };

    ghost quarter_law: { QUARTER ≡ (low Self.format - prec Self.format) * hid Self.format };

    ghost whole_law: { WHOLE ≡ suc (low Self.format) * hid Self.format };
}

impl Patterned for f32 {
    const SIGN: u64 = 0x8000_0000;

    const LEADING: u64 = 0x80_0000;

    const DIGITS: u64 = 24;

    const QUARTER: u64 = 0x3e80_0000;

    const WHOLE: u64 = 0x4b00_0000;

    ghost SIGN = { 0x8000_0000 };

    ghost LEADING = { 0x80_0000 };

    ghost DIGITS = { 24 };

    ghost QUARTER = { 0x3e80_0000 };

    ghost WHOLE = { 0x4b00_0000 };

    fn to_pattern(self) -> u64 {
        f32_to_bits_with_nan(self) as u64
    }

    fn from_pattern(pattern: u64) -> f32 {
        f32::from_bits(pattern as u32)
    }

    fn from_whole(n: u64) -> f32 {
        n as u32 as f32
    }

    ghost sign_law = { refl };

    ghost leading_law = { refl };

    ghost digits_law = { refl };

    ghost quarter_law = { refl };

    ghost whole_law = { refl };
}

impl Patterned for f64 {
    const SIGN: u64 = 0x8000_0000_0000_0000;

    const LEADING: u64 = 0x10_0000_0000_0000;

    const DIGITS: u64 = 53;

    const QUARTER: u64 = 0x3fd0_0000_0000_0000;

    const WHOLE: u64 = 0x4330_0000_0000_0000;

    ghost SIGN = { 0x8000_0000_0000_0000 };

    ghost LEADING = { 0x10_0000_0000_0000 };

    ghost DIGITS = { 53 };

    ghost QUARTER = { 0x3fd0_0000_0000_0000 };

    ghost WHOLE = { 0x4330_0000_0000_0000 };

    fn to_pattern(self) -> u64 {
        f64_to_bits_with_nan(self)
    }

    fn from_pattern(pattern: u64) -> f64 {
        f64::from_bits(pattern)
    }

    fn from_whole(n: u64) -> f64 {
        n as f64
    }

    ghost sign_law = { refl };

    ghost leading_law = { refl };

    ghost digits_law = { refl };

    ghost quarter_law = { refl };

    ghost whole_law = { refl };
}

// How many binary places after the point the digits of the value of pattern a have: one more than there are digits stands for more. The quotient is as wide as the pattern:
// a difference in 8 bits would tie each call to the one before it by the rest of the register.
fn places<T: Patterned>(a: u64) -> u64
    requires { a < T.WHOLE }
    ensures bound { (0 < result) × (result ≤ T.DIGITS + 1) }
    ensures places { Places T.format a result }
{
    if a < T::QUARTER {
        T::DIGITS + 1
    } else {
        (T::WHOLE + T::LEADING - 1 - a) / T::LEADING
    }
}

// The nearest whole number, halves away from zero.
pub fn round<T: Patterned>(x: T) -> T
    ensures { T.float result ≡ float_round T.format (T.float x) }
{
    let b = x.to_pattern();
    let a = b % T::SIGN;
    if a < T::WHOLE {
        // x is m * 2^-s
        let m = a % T::LEADING + T::LEADING;
        let s = places::<T>(a);
        let n = (m + (1 << (s - 1))) >> s;
        let size = T::from_whole(n).to_pattern();
        T::from_pattern(b / T::SIGN * T::SIGN + size)
    } else {
        x.round()
    }
}

// 2^52 + 2^51
const SHIFT: f64 = 6755399441055744.0;

// The whole part of x, and where that is no i32 the nearest one; 0 for a NaN. Where x is whole, the last 32 digits of the sum are its own.
pub fn to_i32(x: f64) -> i32
    ensures { result ≡ to_signed 31 x }
{
    let y = x + SHIFT;
    if y - SHIFT == x {
        let p = f64_to_bits_with_nan(y);
        if 0x4337_ffff_8000_0000 < p && p < 0x4338_0000_8000_0000 {
            return (p as i64 - 0x4338_0000_0000_0000) as i32;
        }
    }
    saturating_f64_to_i32(x)
}

#[cfg(test)]
mod tests {
    use super::*;
    use std::process::Abort;

    // What x is rounded to, by the bound alone.
    fn rounds_to<T: Patterned>(rt: &impl Abort, x: T, n: u64)
        requires { n ≤ T.LEADING }
    {
        assert!(rt; round(x) == T::from_whole(n));
        assert!(rt; round(-x) == -T::from_whole(n));
    }

    #[test]
    fn rounds_an_f32(rt: HostRuntime) {
        rounds_to(&rt, 0.25f32, 0);
        rounds_to(&rt, 0.49999997f32, 0);
        rounds_to(&rt, 0.5f32, 1);
        rounds_to(&rt, 2.5f32, 3);
        rounds_to(&rt, 8388607.5f32, 8388608);
        rounds_to(&rt, 8388608.0f32, 8388608);
    }

    #[test]
    fn rounds_an_f64(rt: HostRuntime) {
        rounds_to(&rt, 0.25f64, 0);
        rounds_to(&rt, 0.49999999999999994f64, 0);
        rounds_to(&rt, 0.5f64, 1);
        rounds_to(&rt, 2.5f64, 3);
        rounds_to(&rt, 4503599627370495.5f64, 4503599627370496);
        rounds_to(&rt, 4503599627370496.0f64, 4503599627370496);
    }
}
