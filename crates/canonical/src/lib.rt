// The normal form of a transducer (01: clean sheet).
#![tactic(auto)]

pub mod normal;
pub mod quotient;
