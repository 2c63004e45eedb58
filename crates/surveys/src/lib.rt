// The calls that a survey takes, and its answers.
#![tactic(auto)]

pub mod answers;
pub mod calls;
