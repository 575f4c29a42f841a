//! Blocks of points. Each statement stands on the contract of a function that has nothing to do.
#![tactic(auto)]

pub mod statements;
