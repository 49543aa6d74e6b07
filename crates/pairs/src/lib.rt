// The pair search over two transducers.
#![tactic(auto)]

pub mod pairs;
