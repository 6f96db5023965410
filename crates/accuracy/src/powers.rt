// exp2 and exp10 near 2^x and 10^x, for every lawful arithmetic.
ghost use Rattle.accuracy.specs.Theorems.{NearOneNearest};
ghost use Rattle.accuracy.specs.PowerBounds.{Exp2Inner, Exp10Inner};
ghost use Rattle.accuracy.specs.PowerArguments.{Exp2Arguments, Exp10Arguments};

// Near one exp10 gives the f32 nearest to 10^x.
pub fn exp10_near_one_is_nearest()
    ensures { NearOneNearest }
{}

// The f64 that exp2 narrows is within 2^-43 of 2^x by the table, and within 2^-47 near zero.
pub fn exp2_is_near_before_narrowing()
    ensures { Exp2Inner }
{}

// The f64 that exp10 narrows is within 2^-43 of 10^x.
pub fn exp10_is_near_before_narrowing()
    ensures { Exp10Inner }
{}

// Every argument that exp2 hands to fma and round lies in the ranges of the law.
pub fn exp2_asks_within_the_law()
    ensures { Exp2Arguments }
{}

// Every argument that exp10 hands to fma and round lies in the ranges of the law.
pub fn exp10_asks_within_the_law()
    ensures { Exp10Arguments }
{}
