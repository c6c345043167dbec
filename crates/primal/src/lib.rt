// The plan's side of document 01 on padded arrays: terms, the model, cost and ceiling. Sums have fixed
// lengths: places beyond the sizes hold 0 and add nothing.
#![tactic(auto)]

pub mod cost;
pub mod dot;
pub mod lifted;
pub mod model;
pub mod terms;
pub mod total;
