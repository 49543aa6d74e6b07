// The largest common prefixes of the outputs of a transducer's states (01: heads).
#![tactic(auto)]

pub mod callers;
pub mod pattern;
pub mod prefix;
mod tables;
