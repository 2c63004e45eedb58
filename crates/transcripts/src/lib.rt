// What the command program prints.
#![tactic(auto)]

pub mod entry;
mod lines;
pub mod print;
