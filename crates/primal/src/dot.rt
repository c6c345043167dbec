// Sums of products.
ghost use Rattle.std.specs.Prelude.{◌+◌, ◌*◌, ◌≤◌, ◌≡◌, length, ◌*ℤ◌};
ghost use Rattle.integer.specs.Places.{at, Bounded};
ghost use Rattle.integer.specs.Sum.{sum};
ghost use Rattle.commands.specs.Ranges.{most_multiplier};
ghost use Rattle.primal.specs.Ranges.{Reaches};

// The sum of products of count numbers: of x from i on, and of y every stride-th from j on. The
// largest numbers that it is asked for are multipliers and drifts, up to 2^24 in size.
pub fn dot(x: &[i64], i: usize, y: &[i64], j: usize, stride: usize, count: usize) -> i64
    requires { (count ≤ 6) × (i + count ≤ length x.now) × Reaches y.now j stride count × Bounded most_multiplier x.now × Bounded most_multiplier y.now }
    ensures { result ≡ sum count (λ q. at x.now (i + q) *ℤ at y.now (j + stride * q)) }
{
    let mut total: i64 = 0;
    for q in 0..count {
        total += x[i + q] * y[j + stride * q];
    }
    total
}
