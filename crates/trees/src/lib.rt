// The files of two alphabets (01: stock) and of an input tree (01: design), and why an input is refused.
#![tactic(auto)]

pub mod alphabet;
pub mod bytes;
pub mod levels;
pub mod refusal;
pub mod tree;
