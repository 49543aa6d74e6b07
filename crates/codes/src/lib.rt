// The codes of output symbols (01: the codes of blocks), A1 to H8.
#![tactic(auto)]

pub mod symbol;
