// IEEE 754-2019 said over the values of floats: what is proved of rounding, of the operations, and of their errors.
// Each function's contract is one theorem; the statements stand in specs/.

#![tactic(auto)]

ghost use Rattle.rounding.specs.Units.{ExponentBounds, UnitExamples};
ghost use Rattle.rounding.specs.Nearest.{Limits};
ghost use Rattle.rounding.specs.Operations.{RoundNearest, Products, Sums, MultiplyAdds, Conversions, WholeNumbers};
ghost use Rattle.rounding.specs.Errors.{NearestUnique, HeldUnchanged, InfiniteExactly, InfiniteNear, HalfUnit, RelativeError, NearFigure, MultiplyAddError, ExactMultiplyAdd, MultiplesStay, MultiplesAway, TwoFigures, FiguresAgree};

/// The exponent E that the unit of a figure is defined by has 2^E ≤ |y| < 2^(E+1).
pub fn exponent_bounds()
    ensures { ExponentBounds }
{}

/// The units of 1, of 0, of the smallest normal value and of the largest.
pub fn unit_examples()
    ensures { UnitExamples }
{}

/// The limits of overflow, 2^128 - 2^103 and 2^1024 - 2^970.
pub fn limits()
    ensures { Limits }
{}

/// `round` gives the nearest value of the format, ties to even.
pub fn round_nearest()
    ensures { RoundNearest }
{}

/// Multiplication is IEEE 754-2019's.
pub fn products()
    ensures { Products }
{}

/// Addition is IEEE 754-2019's.
pub fn sums()
    ensures { Sums }
{}

/// The fused multiply-add is IEEE 754-2019's.
pub fn multiply_adds()
    ensures { MultiplyAdds }
{}

/// The conversion to a format is IEEE 754-2019's.
pub fn conversions()
    ensures { Conversions }
{}

/// Rounding to a whole number is IEEE 754-2019's roundToIntegralTiesToAway.
pub fn whole_numbers()
    ensures { WholeNumbers }
{}

/// One value is nearest to a number, but for the sign of a zero.
pub fn nearest_unique()
    ensures { NearestUnique }
{}

/// A number that the format holds is not changed.
pub fn held_unchanged()
    ensures { HeldUnchanged }
{}

/// A number rounds to an infinity exactly from the limit on: 2^128 - 2^103 in binary32.
pub fn infinite_exactly()
    ensures { InfiniteExactly }
{}

/// And so it is told from a number near it.
pub fn infinite_near()
    ensures { InfiniteNear }
{}

/// A result is off by half its unit at most.
pub fn half_unit()
    ensures { HalfUnit }
{}

/// In the normal range it is off by 2^-prec of the number at most.
pub fn relative_error()
    ensures { RelativeError }
{}

/// A number within e of v rounds to a figure within half a unit and e of v.
pub fn near_figure()
    ensures { NearFigure }
{}

/// A multiply-add, rounded once or twice, keeps one bound.
pub fn multiply_add_error()
    ensures { MultiplyAddError }
{}

/// Where the format holds the product and the sum, a multiply-add is exact, rounded once or twice.
pub fn exact_multiply_add()
    ensures { ExactMultiplyAdd }
{}

/// A multiple of 2^-k rounds to one, and what is 0 or at least 2^-k in size stays so.
pub fn multiples_stay()
    ensures { MultiplesStay }
{}

/// A multiple of 2^-k is 0 or at least 2^-k in size.
pub fn multiples_away()
    ensures { MultiplesAway }
{}

/// Two numbers within e of v round to equal figures, or to neighbouring ones with v within e of their midpoint.
pub fn two_figures()
    ensures { TwoFigures }
{}

/// Two floats near v, relative to their own sizes, round to figures that agree to d units of the lesser.
pub fn figures_agree()
    ensures { FiguresAgree }
{}
