// A transducer as a table, its form: where its bodies start, and their marks; and the file of it.
#![tactic(auto)]

pub mod leaf;
pub mod write;
