// Translation: what one transducer gives on an input tree; where the subtrees of an input tree end, and how deep each mark stands in its right-hand side.
#![tactic(auto)]

pub mod children;
pub mod depth;
pub mod translate;
