// The passes of a round after step 2: what the inputs force, the residuals straight into the next y,
// and the candidate with its cost.
#![tactic(auto)]

pub mod ascend;
pub mod followed;
pub mod forced;
