//! Digit fields: sum, product, negative and inverse of the digits below q.
#![tactic(auto)]

mod binary;
pub mod bit;
pub mod field;
pub mod four;
pub mod prime;
