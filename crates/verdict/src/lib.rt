//! The verdict on a table: the least t of its blocks, from the table and the field alone.
#![tactic(auto)]

mod matrix;
pub mod search;
