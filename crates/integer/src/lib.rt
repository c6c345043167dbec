// Whole numbers: the arithmetic of document 01 that the machine does not have, and operands of a tape.
#![tactic(auto)]

pub mod bytes;
pub mod number;
