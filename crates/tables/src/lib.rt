//! Digit tables, and the direction lists that Sobol' tables are built from.
#![tactic(auto)]

pub mod directions;
pub mod faure;
mod polynomial;
pub mod raw;
pub mod reader;
pub mod record;
pub mod sobol;
pub mod table;
