// (r - a × l) ÷ (a × b), of which only the result must fit (02, 2026-03): step by step where each step fits, else in
// full in 128 bits.
#![tactic(auto)]

ghost use Rattle.std.specs.Prelude.{◌≡◌, ◌*ℤ◌, ◌^◌, ◌<◌, pos, nat_abs};
ghost use Rattle.fraction.specs.Exact.{Operand, reduce_of};
ghost use Rattle.integer.specs.Gcd.{gcd as gcd_of};
ghost use Rattle.wide.specs.internal.Wide.{steps_of};
ghost use Rattle.wide.specs.Share.{ratio_of, over_of, under_of, share_of};

use fraction::{Fraction, Misfit, Worked};

// The greatest numerator and denominator.
const MOST: u128 = 2147483647;

// The greatest common divisor: integer::gcd in 128 bits.
// One function for both needs a trait of numbers with the laws of a remainder, which is no plainer.
fn gcd(a: u128, b: u128) -> u128
    ensures { result ≡ gcd_of a b }
{
    let mut x = a;
    let mut y = b;
    while y != 0 {
        (x, y) = (y, x % y);
    }
    x
}

// z over d, fully reduced: Fraction::reduced in 128 bits.
// One function for both needs that trait too, which is no plainer.
fn lowest(z: i128, d: u128) -> Worked
    ensures { result ≡ reduce_of z d }
{
    if d == 0 {
        return Err(Misfit);
    }
    let size = z.unsigned_abs();
    let g = gcd(size, d);
    let n = size / g;
    let m = d / g;
    if n > MOST || m > MOST {
        return Err(Misfit);
    }
    Ok(Fraction {
        num: if z < 0 { -(n as i32) } else { n as i32 },
        den: m as u32,
    })
}

// n over m, fully reduced, the sign on top.
fn ratio(n: i128, m: i128) -> Worked
    requires { nat_abs n < 2 ^ 127 }
    ensures { result ≡ ratio_of n m }
{
    lowest(n * m.signum(), m.unsigned_abs())
}

// ---- the formula: r, a, l and b are its own letters; with a struct of them each would be read through it at every use

// The numerator of r - a × l over the denominators of r, a and l, times the denominator of b.
fn over(r: Fraction, a: Fraction, l: Fraction, b: Fraction) -> i128
    requires { Operand r × Operand a × Operand l × Operand b }
    ensures is { result ≡ over_of r a l *ℤ pos b.den }
    ensures size { nat_abs result < 2 ^ 127 }
{
    integer::cross_both(integer::cross(r.num, a.den), l.den, b.den)
        - integer::cross_both(integer::product(l.num, a.num), r.den, b.den)
}

// What it is divided by: a × b, without the denominators that cancel.
fn under(r: Fraction, a: Fraction, l: Fraction, b: Fraction) -> i128
    ensures { result ≡ under_of r a l b }
{
    integer::cross_both(integer::product(a.num, b.num), r.den, l.den)
}

// (r - a × l) ÷ (a × b), step by step.
#[tactic(auto, using(fraction::proofs::Laws::misfit_is), unfolding(fraction::specs::Formula::subtracted, fraction::specs::Formula::multiplied, fraction::specs::Formula::divided))]
fn by_steps(r: Fraction, a: Fraction, l: Fraction, b: Fraction) -> Worked
    ensures { result ≡ steps_of r a l b }
{
    r.difference(a.product(l)?)?.quotient(a.product(b)?)
}

// The same, in full.
#[tactic(auto, unfolding(crate::specs::Share::share_of))]
fn in_full(r: Fraction, a: Fraction, l: Fraction, b: Fraction) -> Worked
    ensures { result ≡ share_of r a l b }
{
    if r.is_operand() && a.is_operand() && l.is_operand() && b.is_operand() {
        return ratio(over(r, a, l, b), under(r, a, l, b));
    }
    Err(Misfit)
}

// (r - a × l) ÷ (a × b): only the result must fit. By `or_else` it was tried, and the proof did not close: what that tells of the
// call of a closure did not give the share.
pub fn share(r: Fraction, a: Fraction, l: Fraction, b: Fraction) -> Worked
    ensures { result ≡ share_of r a l b }
{
    let w = by_steps(r, a, l, b);
    if w.is_ok() {
        return w;
    }
    in_full(r, a, l, b)
}
