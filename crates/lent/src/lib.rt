// The tests of lent numbers: multipliers, and a plan from the front.
#![tactic(auto)]

pub mod multipliers;
pub mod walk;
