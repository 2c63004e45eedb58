// The lines of an input and the commands that they give. Words stay where they lie in the input.
#![tactic(auto)]

pub mod command;
pub mod part;
mod reader;
pub mod script;
