//! Fractions, and the exact value of e^x, 2^x, 10^x and e^x - 1 as claims about fractions.
//!
//! The definitions stand in specs/. Each function below states in its contract one theorem about them.

#![tactic(auto)]

ghost use Rattle.exact.specs.Laws.{Agree, Ordered, Sides, Starts, Tangent, Multiplies};
ghost use Rattle.exact.specs.Laws.{Tail, Product, Vanishes, Grows, Inverse, Decides, Nested, Powers};

/// Two fractions within d and d' of one value are within d + d' of each other.
pub fn values_agree()
    ensures { Agree }
{}

/// If a value is at least r and at most s, then r is at most s.
pub fn values_are_ordered()
    ensures { Ordered }
{}

/// A value within d of y is at least y - d and at most y + d.
pub fn values_have_sides()
    ensures { Sides }
{}

/// e^0, 2^0 and 10^0 are 1, and e^0 - 1 is 0.
pub fn powers_start_at_one()
    ensures { Starts }
{}

/// From 0 up, each function lies above its tangent at 0.
pub fn values_exceed_tangent()
    ensures { Tangent }
{}

/// e^(a + b) is e^a times e^b.
pub fn exponents_add()
    ensures { Multiplies }
{}

/// No later sum is further from a sum than its rest.
pub fn rest_bounds_tail()
    ensures { Tail }
{}

/// The product of two sums is the sum at the sum of the arguments, up to the rest.
pub fn sums_multiply()
    ensures { Product }
{}

/// The rest gets below every fraction above 0.
pub fn rest_vanishes()
    ensures { Vanishes }
{}

/// From 0 up, the sums grow with the argument.
pub fn sums_grow()
    ensures { Grows }
{}

/// The sum at -t is the inverse of that at t, up to the rest.
pub fn opposite_is_inverse()
    ensures { Inverse }
{}

/// One sum with room for its rest tells what holds of every sum.
pub fn one_sum_decides()
    ensures { Decides }
{}

/// Each bracket of ln 2 and of ln 10 holds the later ones.
pub fn brackets_are_nested()
    ensures { Nested }
{}

/// The brackets give the whole powers of 2 from -200 to 200 and of 10 from -60 to 60, within 2^-70 of themselves.
pub fn brackets_give_powers()
    ensures { Powers }
{}
