// Floats as the numbers that they are: the whole number nearest to one.
#![tactic(auto)]

ghost use Rattle.std.specs.Prelude.{◌≡◌};
ghost use Rattle.float.specs.Value.{numerator, denominator};
ghost use Rattle.float.specs.Nearest.{nearest_whole, Within};

// The whole number nearest to x, halves upward. x less its whole part is exact, where x + 0.5 is
// not: the largest float below 0.5 and 0.5 have the float sum 1.
pub fn nearest(x: f64) -> i64
    requires { Within 67108864 x }
    ensures { result ≡ nearest_whole (numerator x) (denominator x) }
{
    let whole = std::num::truncating_f64_to_i64(x);
    let rest = x - whole as f64;
    if 0.5 <= rest {
        return whole + 1;
    }
    if rest < -0.5 {
        return whole - 1;
    }
    whole
}
