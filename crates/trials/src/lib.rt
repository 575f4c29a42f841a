//! The tests of sets of points and of runs.
#![tactic(auto)]

#[cfg(test)]
mod net_tests;
#[cfg(test)]
mod run_tests;
