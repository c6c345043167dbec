// The steps of a round: of each multiplier and plan number, on whole arrays, and step 3's verdict.
#![tactic(auto)]

pub mod arrays;
pub mod numbers;
pub mod verdict;
