// Classes of equivalent states of a transducer.
#![tactic(auto)]

pub mod refining;
