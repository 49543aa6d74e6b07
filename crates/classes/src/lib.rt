// Classes of the states of a transducer: right-hand sides up to classes, the classes to start from, the numbers of classes.
#![tactic(auto)]

pub mod classes;
