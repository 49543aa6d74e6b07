// The records of a registry (01: book), and what each step of its entry points does.
#![tactic(auto)]

pub mod book;
pub mod chain;
pub mod entry;
pub mod making;
pub mod search;
