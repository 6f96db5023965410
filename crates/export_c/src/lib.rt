// The C functions of the static library. Their names and their numbers are the C interface, as `vastulm.h` of `export` declares it.

#![tactic(auto)]

ghost use Rattle.std.specs.Prelude.{◌≡◌, ◌<◌, ◌≤◌};
ghost use Rattle.arithmetic.specs.Arithmetic.{generic, fusing};
ghost use Rattle.curves.specs.Exp.{exp_value};
ghost use Rattle.curves.specs.Exp2.{exp2_value};
ghost use Rattle.curves.specs.Exp10.{exp10_value};
ghost use Rattle.curves.specs.Expm1.{expm1_value};
ghost use Rattle.query.specs.Meaning.{answer};
ghost use Rattle.export.specs.Answers.{Answered, curve_of, arithmetic_of};

use accuracy::function::Function::{Exp, Exp2, Exp10, Expm1};
use export::{Numbers, UnknownNumber};
use query::ArithmeticName::{Fused, TwoStep};
use query::Pair;

#[unsafe(no_mangle)]
pub extern "C" fn vastulm_exp_two_step(bits: u32) -> u32
    ensures { result ≡ answer (exp_value generic) bits }
{
    Pair::new(Exp, TwoStep).answer_at(bits)
}

#[unsafe(no_mangle)]
pub extern "C" fn vastulm_exp_fused(bits: u32) -> u32
    ensures { result ≡ answer (exp_value fusing) bits }
{
    Pair::new(Exp, Fused).answer_at(bits)
}

#[unsafe(no_mangle)]
pub extern "C" fn vastulm_exp2_two_step(bits: u32) -> u32
    ensures { result ≡ answer (exp2_value generic) bits }
{
    Pair::new(Exp2, TwoStep).answer_at(bits)
}

#[unsafe(no_mangle)]
pub extern "C" fn vastulm_exp2_fused(bits: u32) -> u32
    ensures { result ≡ answer (exp2_value fusing) bits }
{
    Pair::new(Exp2, Fused).answer_at(bits)
}

#[unsafe(no_mangle)]
pub extern "C" fn vastulm_exp10_two_step(bits: u32) -> u32
    ensures { result ≡ answer (exp10_value generic) bits }
{
    Pair::new(Exp10, TwoStep).answer_at(bits)
}

#[unsafe(no_mangle)]
pub extern "C" fn vastulm_exp10_fused(bits: u32) -> u32
    ensures { result ≡ answer (exp10_value fusing) bits }
{
    Pair::new(Exp10, Fused).answer_at(bits)
}

#[unsafe(no_mangle)]
pub extern "C" fn vastulm_expm1_two_step(bits: u32) -> u32
    ensures { result ≡ answer (expm1_value generic) bits }
{
    Pair::new(Expm1, TwoStep).answer_at(bits)
}

#[unsafe(no_mangle)]
pub extern "C" fn vastulm_expm1_fused(bits: u32) -> u32
    ensures { result ≡ answer (expm1_value fusing) bits }
{
    Pair::new(Expm1, Fused).answer_at(bits)
}

// Numbers in and out: the C interface.
#[unsafe(no_mangle)]
pub extern "C" fn vastulm_fill(curve: u32, arithmetic: u32, patterns: &mut [u32]) -> u32
    ensures no_curve { 3 < curve → (result ≡ 1) × (patterns.new ≡ patterns.old) }
    ensures no_arithmetic { curve ≤ 3 → 1 < arithmetic → (result ≡ 2) × (patterns.new ≡ patterns.old) }
    ensures done { curve ≤ 3 → arithmetic ≤ 1 → (result ≡ 0) × Answered (curve_of curve (arithmetic_of arithmetic)) patterns.old patterns.new }
{
    match Pair::try_from(Numbers { curve, arithmetic }) {
        Ok(pair) => {
            export::fill(pair, patterns);
            0
        }
        Err(UnknownNumber::Curve) => 1,
        Err(UnknownNumber::Arithmetic) => 2,
    }
}
