// The earliest form of a transducer (01: trimmed sheet).
#![tactic(auto)]

pub mod discover;
pub mod earliest;
pub mod expand;
pub mod kinds;
