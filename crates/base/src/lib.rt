//! What every other crate believes: faults with their numbers, and the definitions of the subject.
#![tactic(auto)]

pub mod digits;
pub mod faults;
pub mod limits;
pub mod splits;
