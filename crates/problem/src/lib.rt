// Document 01's mathematics: its definitions in `specs/`, the theorem of demand 3 and the figures in
// `proofs/`. The functions that compute it are in the crates `primal` and `dual`.
#![tactic(auto)]

// What the limits and the cost say of one plan number: P, lo, hi and r.
#[derive(Clone, Copy)]
pub struct Term {
    pub penalty: i64,
    pub low: i64,
    pub high: i64,
    pub reference: i64,
}
