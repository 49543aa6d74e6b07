// The lines of the program `sheets`: passes and marks of two clean sheets, and whether the two sew alike.
#![tactic(auto)]

pub mod report;
mod text;
