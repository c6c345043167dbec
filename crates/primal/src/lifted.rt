// Quotients by a power of 2, lifted above 0.
ghost use Rattle.std.specs.Prelude.{◌*◌, ◌<◌, ◌≤◌, ◌≡◌, pos, nat_abs};
ghost use Rattle.integer.specs.Quotient.{◌÷◌};

// x / d rounded down, as `integer::number::quotient` gives it, without its branch: 2^32 is added to
// the quotient before the division, so that the dividend is unsigned, and taken off after it. Where d
// is a power of 2 that the compiler knows, this is a sum, a shift and a difference.
pub fn lifted_quotient(x: i64, d: u64) -> i64
    requires { (0 < d) × (d ≤ 65536) × (nat_abs x ≤ 4294967296 * d) }
    ensures { result ≡ x ÷ pos d }
{
    ((x + (4294967296 * d) as i64) as u64 / d) as i64 - 4294967296
}
