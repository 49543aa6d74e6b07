// A shown difference of two transducers: an input tree and an address at which their output trees have two symbols.
#![tactic(auto)]

pub mod other;
pub mod shown;
pub mod witness;
