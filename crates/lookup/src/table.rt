// The table of a solve, and the minimiser by it.
ghost use Rattle.std.specs.Prelude.{ℕ, ◌*◌, ◌<◌, ◌≤◌, ◌≡◌, length, nat_abs};
ghost use Rattle.integer.specs.Places.{at, Stretch};
ghost use Rattle.primal.specs.Padded.{term_at};
ghost use Rattle.primal.specs.Ranges.{Ranged, Tables};
ghost use Rattle.dual.specs.Slopes.{most_slope};
ghost use Rattle.steps.specs.Steps.{minimiser};
ghost use Rattle.lookup.specs.Table.{term_in, row, Whole, Rows, RowsOf};

use integer::number::limit;
use problem::Term;

// The minimiser at place p with slope s.
pub fn number_at(table: &[i64; 840], p: usize, s: i64) -> i64
    requires { (p < 120) × Rows table.now × (nat_abs s ≤ most_slope) }
    ensures { result ≡ minimiser (term_in table.now p) s }
{
    let d = limit(table[7 * p + 4] - s, 0, table[7 * p + 5]) as u64 / 8192;
    table[7 * p + 1] + (d * table[7 * p + 6] as u64 / 68719476736) as i64
}

// The row of a term.
fn row_of(term: Term) -> [i64; 7]
    requires { Ranged term }
    ensures { result ≡ row term }
{
    let p = term.penalty;
    if p <= 0 {
        return [
            p,
            term.low,
            term.high,
            term.reference,
            8191,
            8192,
            68719476736 * (term.high - term.low),
        ];
    }
    [
        p,
        term.low,
        term.high,
        term.reference,
        2 * p * (term.reference - term.low) + p,
        2 * p * (term.high - term.low),
        68719476736 / (p / 4096) + 1,
    ]
}

// Puts a row into its place.
fn put_row(table: &mut [i64; 840], row: &[i64; 7], p: usize)
    requires { (p < 120) × (length table.old ≡ 840) }
    ensures { Stretch (7 * p) 7 (at row.now) table.old table.new }
{
    for j in 0..7 {
        table[7 * p + j] = row[j];
    }
}

// The rows of all terms.
pub fn table_of(terms: &[Term; 120]) -> [i64; 840]
    requires { Tables terms.now × ((p : ℕ) → p < 120 → Whole (term_at terms.now p).penalty) }
    ensures { RowsOf terms.now result }
{
    let mut table = [0i64; 840];
    for p in 0..120 {
        put_row(&mut table, &row_of(terms[p]), p);
    }
    table
}
