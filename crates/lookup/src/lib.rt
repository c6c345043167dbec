// A round's numbers by a table that is made once a solve: no division by a weight, and their costs in
// the same pass.
#![tactic(auto)]

pub mod minimise;
pub mod table;
