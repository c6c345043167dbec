// Quotients, limits and sizes.
ghost use Rattle.std.specs.Prelude.{◌^◌, ◌<◌, ◌≡◌, pos, nat_abs, ◌*ℤ◌};
ghost use Rattle.integer.specs.Limited.{limited};
ghost use Rattle.integer.specs.Order.{◌≼◌};
ghost use Rattle.integer.specs.Quotient.{◌÷◌, quotient_up};
ghost use Rattle.integer.specs.Root.{root_up, LeastRoot};
ghost use Rattle.integer.specs.Tests.{outside};

// x / d rounded down. Every divisor of document 01 is from 1: 4,096, 65,536, k + 2 and 2P, by which
// nothing is divided where the weight is 0.
pub fn quotient(x: i64, d: i64) -> i64
    requires { pos 1 ≼ d }
    ensures { result ≡ x ÷ d }
{
    x.div_euclid(d)
}

// x / d rounded up. The machine rounds toward 0, which is up for numbers below 0.
pub fn quotient_up(x: i64, d: i64) -> i64
    requires { pos 1 ≼ d }
    ensures { result ≡ quotient_up x d }
{
    if 0 < x {
        return (x - 1) / d + 1;
    }
    x / d
}

// x limited to lo to hi.
pub fn limit(x: i64, lo: i64, hi: i64) -> i64
    ensures { result ≡ limited lo hi x }
{
    if x < lo {
        return lo;
    }
    if hi < x {
        return hi;
    }
    x
}

// Whether v lies outside lo to hi.
pub fn is_outside(v: i64, lo: i64, hi: i64) -> bool
    ensures { result ≡ outside lo hi v }
{
    v < lo || hi < v
}

// The size of x. It is unsigned, so that the least i64 has one too.
pub fn size(x: i64) -> u64
    ensures { result ≡ nat_abs x }
{
    x.unsigned_abs()
}

// s * s / d rounded up, exact where s * s is beyond 64 bits: with s = a * d + b the square is
// a * (s + b) times d, and b * b. The divisor is 4P, with P from 4,096 to 4,096 * 255; in the third
// piece the size of s is at most 80,000 P, below 2^37.
pub fn square_quotient(s: i64, d: i64) -> i64
    requires { (nat_abs s < 2 ^ 37) × (pos 16384 ≼ d) × (d ≼ pos 4177920) }
    ensures { result ≡ quotient_up (s *ℤ s) d }
{
    let a = quotient(s, d);
    let b = s - a * d;
    let mut total = a * (s + b);
    total += (b * b + (d - 1)) / d;
    total
}

// The root of z rounded up: one more than the largest number whose square is below z. No root is
// beyond 2^32, and no square is formed but of numbers below that.
pub fn root_up(z: u64) -> u64
    ensures value { result ≡ root_up z }
    ensures least_root { LeastRoot z result }
{
    if z == 0 {
        return 0;
    }
    let mut low: u64 = 0;
    let mut high: u64 = 4294967296;
    while low + 1 < high {
        let middle = (low + high) / 2;
        if middle * middle < z {
            low = middle;
        } else {
            high = middle;
        }
    }
    low + 1
}
