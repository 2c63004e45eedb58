// Lists of heights: the tests of a list, and what a gauge over one reads.
#![tactic(auto)]

pub mod checks;
mod law;
pub mod list;
pub mod reading;
