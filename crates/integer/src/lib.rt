// Whole numbers of the machine: the greatest common divisor, size and sign, exact products.
#![tactic(auto)]

ghost use Rattle.std.specs.Prelude.{◌≡◌, pos, nat_abs, ◌*ℤ◌};
ghost use Rattle.integer.specs.Gcd.{gcd as gcd_of, DivisorFrom};
ghost use Rattle.integer.specs.Whole.{signed};

// The greatest common divisor of two numbers; of a and 0 it is a. No plainer by `divisor`, with a limit
// that no caller has.
pub fn gcd(a: u64, b: u64) -> u64
    ensures { result ≡ gcd_of a b }
{
    let mut x = a;
    let mut y = b;
    while y != 0 {
        (x, y) = (y, x % y);
    }
    x
}

// The greatest common divisor of two numbers; where it is below a limit, a number between the two.
pub fn divisor(a: u64, b: u64, limit: u64) -> u64
    ensures { DivisorFrom limit a b result }
{
    let mut high = a;
    let mut low = b;
    while low != 0 {
        if low < limit {
            return low;
        }
        (high, low) = (low, high % low);
    }
    high
}

// The size of a number, the least of its type too.
pub fn size(z: i64) -> u64
    ensures { result ≡ nat_abs z }
{
    z.unsigned_abs()
}

// The number of size q with z's sign.
pub fn with_sign(z: i64, q: u32) -> i64
    ensures { result ≡ signed z q }
{
    let q = i64::from(q);
    if z < 0 { -q } else { q }
}

// n times d, exactly. One function for both products would need a trait with a law and two impls, which is longer.
pub fn cross(n: i32, d: u32) -> i64
    ensures { result ≡ n *ℤ pos d }
{
    i64::from(n) * i64::from(d)
}

// a times b, exactly.
pub fn product(a: i32, b: i32) -> i64
    ensures { result ≡ a *ℤ b }
{
    i64::from(a) * i64::from(b)
}

// n times d times e, exactly.
pub fn cross_both(n: i64, d: u32, e: u32) -> i128
    ensures { result ≡ n *ℤ pos d *ℤ pos e }
{
    (n as i128) * ((d as u64) * (e as u64)) as i128
}
