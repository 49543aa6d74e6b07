// The registry (01: book) over lent memory: normal forms by number.
#![tactic(auto)]

pub mod lent;
