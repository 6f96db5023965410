//! Each curve near its exact value, for every lawful arithmetic.
//!
//! What is promised of a figure stands in specs/. Each function below states in its contract one theorem about the curves.

#![tactic(auto)]

pub mod function;
pub mod powers;

ghost use Rattle.exact.specs.Exact.{Function};
ghost use Rattle.accuracy.specs.Theorems.{Proved};
ghost use Rattle.accuracy.specs.Arguments.{ExpArguments, Expm1Arguments};
ghost use Rattle.accuracy.specs.Inner.{ExpInner, Expm1Inner};

/// Every figure of the four is right and exact, any two arithmetics agree on it, and the special values are the standard's.
pub fn functions_are_accurate()
    ensures { (f : Function) → Proved f }
{}

/// Every argument that exp hands to its arithmetic lies in the law's ranges.
pub fn exp_asks_within_the_law()
    ensures { ExpArguments }
{}

/// Every argument that expm1 hands to its arithmetic lies in the law's ranges.
pub fn expm1_asks_within_the_law()
    ensures { Expm1Arguments }
{}

/// The f64 that is rounded to exp's figure is within 2^-45 of the exact value, relative to its own size.
pub fn exp_is_near_before_narrowing()
    ensures { ExpInner }
{}

/// The f64 that is rounded to expm1's figure is within 17 * 2^-52 of the exact value by the polynomial, and within 125 * 2^-48 by the tables, relative to its own size.
pub fn expm1_is_near_before_narrowing()
    ensures { Expm1Inner }
{}
