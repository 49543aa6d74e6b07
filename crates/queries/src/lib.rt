// Questions about one transducer that are answered without writing an output: whether it is linear, and the symbol at an address of the output.
#![tactic(auto)]

pub mod address;
pub mod linear;
