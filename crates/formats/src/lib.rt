// The file of a transducer (01: sheet): N, the counts, the bodies.
#![tactic(auto)]

pub mod bodies;
pub mod file;
