// What a state of one transducer gives on a right-hand side of another.
#![tactic(auto)]

pub mod walk;
