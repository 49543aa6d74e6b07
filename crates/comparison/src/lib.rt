// Comparing two transducers, with a shown difference.
#![tactic(auto)]

pub mod compare;
pub mod shorter;
