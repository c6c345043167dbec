// Pieces.
ghost use Rattle.std.specs.Prelude.{◌*◌, ◌≤◌, ◌≡◌, pos, nat_abs, ◌+ℤ◌, ◌-ℤ◌, ◌*ℤ◌};
ghost use Rattle.integer.specs.Places.{at, Bounded};
ghost use Rattle.integer.specs.Sum.{sum};
ghost use Rattle.commands.specs.Ranges.{most_number};
ghost use Rattle.problem.specs.Dual.{unweighted, piece};
ghost use Rattle.primal.specs.Padded.{term_at};
ghost use Rattle.primal.specs.Ranges.{most_penalty, Ranged, Tables};
ghost use Rattle.dual.specs.Slopes.{most_slope};

use integer::number::square_quotient;
use primal::cost::cost_of;
use primal::total::total;
use problem::Term;

// 2P (v - r) + s.
pub fn tilt_at(p: i64, v: i64, r: i64, s: i64) -> i64
    requires { (nat_abs p ≤ most_penalty) × (nat_abs v ≤ most_number) × (nat_abs r ≤ most_number) × (nat_abs s ≤ most_slope) }
    ensures { result ≡ pos 2 *ℤ p *ℤ (v -ℤ r) +ℤ s }
{
    2 * p * (v - r) + s
}

// P (v - r)² + s v.
fn edge(p: i64, v: i64, r: i64, s: i64) -> i64
    requires { (nat_abs p ≤ most_penalty) × (nat_abs v ≤ most_number) × (nat_abs r ≤ most_number) × (nat_abs s ≤ most_slope) }
    ensures { result ≡ p *ℤ ((v -ℤ r) *ℤ (v -ℤ r)) +ℤ s *ℤ v }
{
    cost_of(p, r, v) + s * v
}

// The number of a column of weight 0: the limit at which s v is least, lo where s is 0.
pub fn unweighted_of(low: i64, high: i64, s: i64) -> i64
    ensures { result ≡ unweighted low high s }
{
    if 0 <= s {
        return low;
    }
    high
}

// The piece of a plan number with slope s. The square is formed, and divided, only where all three
// tests bound s and P.
pub fn piece_of(term: Term, s: i64) -> i64
    requires { Ranged term × (nat_abs s ≤ most_slope) }
    ensures { result ≡ piece term s }
{
    if term.penalty <= 0 {
        return s * unweighted_of(term.low, term.high, s);
    }
    if 0 <= tilt_at(term.penalty, term.low, term.reference, s) {
        return edge(term.penalty, term.low, term.reference, s);
    }
    if tilt_at(term.penalty, term.high, term.reference, s) <= 0 {
        return edge(term.penalty, term.high, term.reference, s);
    }
    s * term.reference - square_quotient(s, 4 * term.penalty)
}

// All pieces, from the slopes.
pub fn pieces(terms: &[Term; 120], s: &[i64; 120], horizon: usize) -> i64
    requires { (horizon ≤ 12) × Tables terms.now × Bounded most_slope s.now }
    ensures { result ≡ sum (10 * horizon) (λ p. piece (term_at terms.now p) (at s.now p)) }
{
    total(10 * horizon, |p| piece_of(terms[p], s[p]))
}
