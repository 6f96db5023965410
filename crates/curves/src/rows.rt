// The rows of the four tables, and a row with a whole power of two.
ghost use Rattle.std.specs.Prelude.{◌≡◌, ℕ, ◌^◌, ◌<◌, List, T, Float, slice_index};
ghost use Rattle.std.specs.Float.Ieee.Scale.{finite};
ghost use Rattle.curves.specs.Tables.{table_exp_m1, table_exp_m2, table_exp2f, table_exp2_mid};
ghost use Rattle.curves.specs.Steps.{double, row, scaled_row};
ghost use Rattle.curves.specs.Entries.{M1Entry, M2Entry, Exp2fEntry, MidEntry};

use crate::power::add_power;
use crate::tables::{EXP_2_MID, EXP_M1, EXP_M2, EXP2F_TABLE};

// A table of powers, as bits of f64.
pub(crate) trait Table {
    ghost rows: { ℕ };

    ghost table: { List ℕ };

    // what an entry stands for, within one unit
    ghost near: { ℕ → Float → Type 0 };

    // The bits of row i.
    fn entry(i: usize) -> u64
        requires { i < rows }
        ensures value { result ≡ slice_index table i }
        ensures near { near i (double result) };

    // The same row as a number.
    final fn row(i: usize) -> f64
        requires { i < rows }
        ensures value { result ≡ row table i }
        ensures near { near i result }
    {
        f64::from_bits(Self::entry(i))
    }

    ghost number: { (i : ℕ) (y : Float) → near i y → T (finite y) };
}

// Each table has an `entry` of its own: that an entry is near its power is proved of one table by name, and a law of the trait could not cite it.

// e^(i - 104)
pub(crate) struct ExpWhole {}

impl Table for ExpWhole {
    ghost rows = { 207 };

    ghost table = { table_exp_m1 };

    ghost near = { M1Entry };

    ghost number = { λ i y e. e.number };

    fn entry(i: usize) -> u64 {
        EXP_M1[i]
    }
}

// e^(i / 128)
pub(crate) struct ExpRest {}

impl Table for ExpRest {
    ghost rows = { 128 };

    ghost table = { table_exp_m2 };

    ghost near = { M2Entry };

    ghost number = { λ i y e. e.number };

    fn entry(i: usize) -> u64 {
        EXP_M2[i]
    }
}

// 2^(i / 64)
pub(crate) struct TwoIn64 {}

impl Table for TwoIn64 {
    ghost rows = { 64 };

    ghost table = { table_exp2f };

    ghost near = { Exp2fEntry };

    ghost number = { λ i y e. e.number };

    fn entry(i: usize) -> u64 {
        EXP2F_TABLE[i]
    }
}

// 2^(i / 32)
pub(crate) struct TwoIn32 {}

impl Table for TwoIn32 {
    ghost rows = { 32 };

    ghost table = { table_exp2_mid };

    ghost near = { MidEntry };

    ghost number = { λ i y e. e.number };

    fn entry(i: usize) -> u64 {
        EXP_2_MID[i]
    }
}

// The bits of a row of 2^BITS with a whole power of two: the last BITS digits of k pick the row, and the others are the power.
pub(crate) fn scaled_row<T: Table, const BITS: u32>(k: i32) -> u64
    requires rows { T.rows ≡ 2 ^ BITS }
    requires few { BITS < 31 }
    ensures { result ≡ scaled_row T.table (2 ^ BITS) k }
{
    let row = k.rem_euclid(1 << BITS) as usize;
    add_power(T::entry(row), k >> BITS)
}
