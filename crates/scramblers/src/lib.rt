//! Scramblers: they turn the digits of a coordinate into other digits, keeping which prefixes agree.
#![tactic(auto)]

pub mod chain;
pub mod keyed;
pub mod linear;
pub mod none;
pub mod scrambler;
pub mod shift;
mod words;
