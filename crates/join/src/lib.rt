// Two transducers joined into one (02: sheet after sheet).
#![tactic(auto)]

pub mod discover;
pub mod join;
pub mod stock;
