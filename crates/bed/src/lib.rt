// The survey of one line of the bed through a gauge.
#![tactic(auto)]

pub mod survey;
pub mod work;
