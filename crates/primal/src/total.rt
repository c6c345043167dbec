// Sums over places.
ghost use Rattle.std.specs.Prelude.{ℕ, ℤ, ◌^◌, ◌<◌, ◌≤◌, ◌≡◌, nat_abs};
ghost use Rattle.integer.specs.Sum.{sum};

// The sum of f(p) over all places p below count.
pub fn total<F: Fn(usize) -> i64>(count: usize, f: F) -> i64
    requires few { count ≤ 120 }
    requires callable { (p : ℕ) → p < count → F.pre f p }
    requires small { (p : ℕ) (r : ℤ) → p < count → F.post f p r → nat_abs r ≤ 2 ^ 56 }
    ensures { (g : ℕ → ℤ) → ((p : ℕ) (r : ℤ) → p < count → F.post f p r → r ≡ g p) → result ≡ sum count g }
{
    let mut total: i64 = 0;
    for p in 0..count {
        total += f(p);
    }
    total
}
