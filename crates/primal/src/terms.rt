// The terms of a tape at padded places.
ghost use Rattle.std.specs.Prelude.{◌<◌, ◌/◌, ◌%◌, ◌≡◌};
ghost use Rattle.tape.specs.Legal.{Legal};
ghost use Rattle.tape.specs.Tape.{reference_at};
ghost use Rattle.problem.specs.Model.{column_term};
ghost use Rattle.primal.specs.Padded.{blank_term};
ghost use Rattle.primal.specs.Terms.{placed_term, TermsOf};

use problem::Term;
use tape::Tape;

// The reference of a column at a step: its own where command 31 gives one.
fn reference_at(t: &Tape, column: usize, k: usize) -> i64
    requires { Legal t.now × (column < 10) × (k < 12) }
    ensures { result ≡ reference_at t.now column k }
{
    let p = 12 * column + k;
    if t.curves.given[p] {
        t.curves.reference[p]
    } else {
        t.reference[column]
    }
}

// A column's term at a step, P = 4096 h.
fn column_term(t: &Tape, column: usize, k: usize) -> Term
    requires { Legal t.now × (column < 10) × (k < 12) }
    ensures { result ≡ column_term t.now column k }
{
    Term {
        penalty: 4096 * t.weight[column],
        low: t.low[column],
        high: t.high[column],
        reference: reference_at(t, column, k),
    }
}

fn blank() -> Term
    ensures { result ≡ blank_term }
{
    Term {
        penalty: 0,
        low: 0,
        high: 0,
        reference: 0,
    }
}

// What stands at a padded place.
fn placed_term(t: &Tape, place: usize) -> Term
    requires { Legal t.now × (place < 120) }
    ensures { result ≡ placed_term t.now (place / 10) (place % 10) }
{
    let k = place / 10;
    let c = place % 10;
    if c < 4 {
        if c < t.m {
            return column_term(t, t.n + c, k);
        }
        return blank();
    }
    if c - 4 < t.n {
        return column_term(t, c - 4, k);
    }
    blank()
}

pub fn terms_of(t: &Tape) -> [Term; 120]
    requires { Legal t.now }
    ensures { TermsOf t.now result }
{
    let mut terms = [blank(); 120];
    for place in 0..120 {
        terms[place] = placed_term(t, place);
    }
    terms
}
