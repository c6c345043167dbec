// The firing record that a solve leaves, as the bytes of its two readers.
#![tactic(auto)]

pub mod write;

// n, m and N.
#[derive(Clone, Copy)]
pub struct Sizes {
    pub n: usize,
    pub m: usize,
    pub horizon: usize,
}
