// What the program `sheet` prints, and its two commands.
#![tactic(auto)]

pub mod arguments;
pub mod commands;
