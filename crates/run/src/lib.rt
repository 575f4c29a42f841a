//! The run: points one after the other, by position, with a verdict on their blocks.
#![tactic(auto)]

pub(crate) mod advance;
pub mod agree;
pub(crate) mod coordinate;
pub(crate) mod opened;
pub(crate) mod point;
pub mod replay;
pub mod run;
