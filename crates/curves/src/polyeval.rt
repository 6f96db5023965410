// Polynomials by multiply-adds, one text for every arithmetic.
ghost use Rattle.std.specs.Prelude.{◌≡◌};
ghost use Rattle.curves.specs.Steps.{horner, poly6_of, times_power_of};

use arithmetic::ExpfBackend;

// a0 + a1 x + a2 x^2 + .. by Horner's scheme, from the highest coefficient down. With no coefficient it is 0.
pub fn polyeval<B: ExpfBackend, const N: usize>(arith: &B, x: f64, a: [f64; N]) -> f64
    ensures { result ≡ horner (B.ExpfBackend.meaning arith.now).fma x a.entry }
{
    a.iter()
        .rev()
        .copied()
        .reduce(|sum, c| arith.fma(x, sum, c))
        .unwrap_or(0.0)
}

// (a0 + a1 x) + x^2 ((a2 + a3 x) + x^2 (a4 + a5 x)).
pub fn polyeval6<B: ExpfBackend>(arith: &B, x: f64, a: [f64; 6]) -> f64
    ensures { result ≡ poly6_of (B.ExpfBackend.meaning arith.now).fma x a }
{
    let [a0, a1, a2, a3, a4, a5] = a;
    let x2 = x * x;
    let high = arith.fma(x, a5, a4);
    let middle = arith.fma(x, a3, a2);
    let low = arith.fma(x, a1, a0);
    polyeval(arith, x2, [low, middle, high])
}

// mh (1 + c0 x + .. + c4 x^5), the last sum by one multiply-add.
pub fn times_power<B: ExpfBackend>(arith: &B, x: f64, mh: f64, c: [f64; 5]) -> f64
    ensures { result ≡ times_power_of (B.ExpfBackend.meaning arith.now).fma x mh c }
{
    let [c0, c1, c2, c3, c4] = c;
    let x2 = x * x;
    let u0 = arith.fma(x, c0, 1.0);
    let u1 = arith.fma(x, c2, c1);
    let u2 = arith.fma(x, c4, c3);
    let p = arith.fma(x2, u2, u1);
    arith.fma(p, x2 * mh, u0 * mh)
}
