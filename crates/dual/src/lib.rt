// The multipliers' side on padded arrays: slopes, pieces and the floor.
#![tactic(auto)]

pub mod floor;
pub mod pieces;
pub mod slopes;
