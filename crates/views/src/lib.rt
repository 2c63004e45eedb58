// The proved crates' answers in the naive words, and the comparison of a look at some touches.
#![tactic(auto)]

pub mod looks;
pub mod words;
