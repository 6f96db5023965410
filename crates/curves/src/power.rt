// Whole powers of two: as an f32, and added into the exponent's field of an f64.
ghost use Rattle.std.specs.Prelude.{◌≡◌, ◌+◌, ◌*◌, ◌%◌, ◌^◌, ◌<◌, true, false, pos, negsuc, ◌≤ℤ◌, if◌then◌else◌, Some, None, unsigned_abs};
ghost use Rattle.std.specs.Float.{fin};
ghost use Rattle.std.specs.Float.Ieee.{to_signed};
ghost use Rattle.std.specs.Int.{int_rem_euclid};
ghost use Rattle.curves.specs.Exp2.{in_powers, bits_of_power};

use std::num::{f32_to_bits_with_nan, nearest_i32_to_f32, saturating_f32_to_i32};

// The twelve bits of p above an f64's digits.
fn exponent_field(p: i32) -> u64
    ensures { result ≡ unsigned_abs (int_rem_euclid p (pos 4096)) * 2 ^ 52 }
{
    i64::from(p).cast_unsigned().wrapping_shl(52)
}

// The bits of an f64 times 2^p. A carry past the top is dropped.
pub(crate) fn add_power(entry: u64, p: i32) -> u64
    ensures { result ≡ (entry + unsigned_abs (int_rem_euclid p (pos 4096)) * 2 ^ 52) % 2 ^ 64 }
{
    entry.wrapping_add(exponent_field(p))
}

// The whole number that x is, where it is one from -149 to 127.
pub(crate) fn whole_power(x: f32) -> Option<i32>
    ensures { result ≡ (if in_powers x then Some (to_signed 31 x) else None) }
{
    // the last 16 digits of such a number are 0, which few others have
    if f32_to_bits_with_nan(x) % 0x1_0000 != 0 {
        return None;
    }
    let k = saturating_f32_to_i32(x);
    if -149 <= k && k <= 127 && nearest_i32_to_f32(k) == x {
        Some(k)
    } else {
        None
    }
}

// The pattern of 2^(j - 149).
fn power_bits(j: u32) -> u32
    requires { j < 277 }
    ensures { result ≡ bits_of_power j }
{
    if j < 23 { 1 << j } else { (j - 22) << 23 }
}

pub(crate) fn power_of_two(k: i32) -> f32
    requires low { negsuc 148 ≤ℤ k }
    requires high { k ≤ℤ pos 127 }
    ensures { result ≡ fin false 1 k }
{
    f32::from_bits(power_bits((k + 149) as u32))
}
