// Exact fractions of 32-bit words (01, "The problem and its figures"): a numerator over a denominator,
// in lowest terms, and the two marks of an absent bound. Every operation answers the fraction or that
// it does not fit.
#![tactic(auto, using(crate::proofs::Laws::misfit_is), unfolding(crate::specs::Exact::difference_of, crate::specs::Exact::quotient_of, crate::specs::Exact::is_same, crate::specs::Exact::is_zero, crate::specs::Exact::from_words, crate::specs::Exact::den_word))]

ghost use Rattle.std.specs.Prelude.{◌≡◌, ◌&&◌, ◌*◌, pos, nat_abs, ◌+ℤ◌, ◌*ℤ◌};
ghost use Rattle.std.specs.Int.Signed.{lt_z};
ghost use Rattle.fraction.specs.Exact.{no_lower, no_upper, Operand, is_operand, is_proper, is_same, is_zero, is_less, fitted, reduce_of, sum_of, difference_of, product_of, quotient_of, negation_of, reciprocal_of, from_words, den_word};

pub mod words;

// A figure: a numerator over a denominator, or a mark, written over 0 as records have it; an enum would be turned into these two words
// at each record. Equal are those that are written alike.
#[derive(Clone, Copy, PartialEq, Eq)]
pub struct Fraction {
    pub num: i32,
    pub den: u32,
}

// That a result does not fit.
#[derive(Clone, Copy, PartialEq, Eq)]
pub struct Misfit;

// What an operation answers: the exact result, or that it does not fit.
pub type Worked = Result<Fraction, Misfit>;

impl Fraction {
    pub const ZERO: Fraction = Fraction { num: 0, den: 1 };

    pub const ONE: Fraction = Fraction { num: 1, den: 1 };

    // An absent lower bound.
    pub const NO_LOWER: Fraction = Fraction { num: -1, den: 0 };

    // An absent upper bound.
    pub const NO_UPPER: Fraction = Fraction { num: 1, den: 0 };

    // z over d, fully reduced.
    pub fn reduced(z: i64, d: u64) -> Worked
        ensures { result ≡ reduce_of z d }
    {
        if d == 0 {
            return Err(Misfit);
        }
        if d == 1 {
            return whole(z);
        }
        let size = integer::size(z);
        // with a lower divisor d / g is beyond range
        let g = integer::divisor(size, d, d / 2147483648);
        let n = size / g;
        let m = d / g;
        if n > 2147483647 {
            return Err(Misfit);
        }
        if m > 2147483647 {
            return Err(Misfit);
        }
        let num = integer::with_sign(z, n as u32);
        Ok(Fraction {
            num: num as i32,
            den: m as u32,
        })
    }

    // Whether an operation can be worked on it: its parts are within range and the denominator is not 0.
    pub fn is_operand(self) -> bool
        ensures { result ≡ is_operand self }
    {
        if num_size(self) > 2147483647 {
            return false;
        }
        if self.den == 0 {
            return false;
        }
        self.den <= 2147483647
    }

    // Whether it is a fraction in form.
    pub fn is_proper(self) -> bool
        ensures { result ≡ is_proper self }
    {
        if self.den == 1 {
            return -2147483648 < self.num;
        }
        if self.is_operand() {
            return integer::gcd(num_size(self), self.den as u64) == 1;
        }
        false
    }

    pub fn sum(self, y: Fraction) -> Worked
        ensures { result ≡ sum_of self y }
    {
        if operands(self, y) {
            return Fraction::reduced(cross_sum(self, y), denominator(self, y));
        }
        Err(Misfit)
    }

    pub fn product(self, y: Fraction) -> Worked
        ensures { result ≡ product_of self y }
    {
        if operands(self, y) {
            return Fraction::reduced(integer::product(self.num, y.num), denominator(self, y));
        }
        Err(Misfit)
    }

    pub fn negation(self) -> Worked
        ensures { result ≡ negation_of self }
    {
        if self.is_operand() {
            return Ok(Fraction {
                num: 0 - self.num,
                den: self.den,
            });
        }
        Err(Misfit)
    }

    // 1 over it; there is none of 0.
    pub fn reciprocal(self) -> Worked
        ensures { result ≡ reciprocal_of self }
    {
        if self.is_operand() {
            let size = num_size(self);
            if size == 0 {
                return Err(Misfit);
            }
            let num = integer::with_sign(self.num as i64, self.den);
            return Ok(Fraction {
                num: num as i32,
                den: size as u32,
            });
        }
        Err(Misfit)
    }

    pub fn difference(self, y: Fraction) -> Worked
        ensures { result ≡ difference_of self y }
    {
        self.sum(y.negation()?)
    }

    pub fn quotient(self, y: Fraction) -> Worked
        ensures { result ≡ quotient_of self y }
    {
        self.product(y.reciprocal()?)
    }

    // Whether it is less than y, in the one order of fractions and both marks. A method and no `PartialOrd`, which wants
    // `==` exactly where neither is less: 1/2 and 2/4 are not written alike.
    pub fn less(self, y: Fraction) -> bool
        ensures { result ≡ is_less self y }
    {
        if self.den == 0 {
            if y.den == 0 {
                return self.num < y.num;
            }
            return cross_less(self, y);
        }
        cross_less(self, y)
    }

    pub fn is_zero(self) -> bool
        ensures { result ≡ is_zero self }
    {
        self == Fraction::ZERO
    }

    // Whether it is the mark of an absent lower bound.
    pub fn is_no_lower(self) -> bool
        ensures { result ≡ is_same self no_lower }
    {
        self == Fraction::NO_LOWER
    }

    // Whether it is the mark of an absent upper bound.
    pub fn is_no_upper(self) -> bool
        ensures { result ≡ is_same self no_upper }
    {
        self == Fraction::NO_UPPER
    }

    // The figure that two words of a record stand for.
    pub fn from_words(num: i32, den: i32) -> Fraction
        ensures { result ≡ from_words num den }
    {
        Fraction {
            num,
            den: u32::try_from(den).unwrap_or(u32::MAX),
        }
    }

    // The word that its denominator is written as; its numerator is a word already.
    pub fn den_word(self) -> i32
        ensures { result ≡ den_word self.den }
    {
        i32::try_from(self.den).unwrap_or(-1)
    }
}

// z over 1.
fn whole(z: i64) -> Worked
    ensures { result ≡ fitted z 1 }
{
    if z < -2147483647 {
        return Err(Misfit);
    }
    if z > 2147483647 {
        return Err(Misfit);
    }
    Ok(Fraction {
        num: z as i32,
        den: 1,
    })
}

// The size of the numerator.
fn num_size(x: Fraction) -> u64
    ensures { result ≡ nat_abs x.num }
{
    integer::size(x.num as i64)
}

// Whether an operation can be worked on both.
fn operands(x: Fraction, y: Fraction) -> bool
    ensures { result ≡ (is_operand x && is_operand y) }
{
    x.is_operand() && y.is_operand()
}

// The numerator of the sum over the product of the denominators.
fn cross_sum(x: Fraction, y: Fraction) -> i64
    requires { Operand x × Operand y }
    ensures { result ≡ x.num *ℤ pos y.den +ℤ y.num *ℤ pos x.den }
{
    integer::cross(x.num, y.den) + integer::cross(y.num, x.den)
}

// Whether the first cross product is less than the second.
fn cross_less(x: Fraction, y: Fraction) -> bool
    ensures { result ≡ lt_z (x.num *ℤ pos y.den) (y.num *ℤ pos x.den) }
{
    integer::cross(x.num, y.den) < integer::cross(y.num, x.den)
}

// The product of the denominators.
fn denominator(x: Fraction, y: Fraction) -> u64
    ensures { result ≡ x.den * y.den }
{
    (x.den as u64) * (y.den as u64)
}
