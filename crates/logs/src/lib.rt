// What a survey holds beside its gauge: the setting it was opened with, the gauge's line, and the table of touches.
#![tactic(auto)]

pub mod log;
pub mod setting;
