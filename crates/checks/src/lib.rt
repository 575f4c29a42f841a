//! The counting check of points, and travel scaling. They know nothing of fields, orders or tables.
#![tactic(auto)]

mod block;
pub mod check;
mod grid;
pub mod numerators;
pub mod travel;
