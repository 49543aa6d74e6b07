// The states of a transducer, numbered as they are first met, and its bodies in a table, body by body.
#![tactic(auto)]

pub mod discover;
pub mod queue;
