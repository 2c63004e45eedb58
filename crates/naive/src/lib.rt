// The rules of the survey a second time, as literally as they can be said and as slowly as that takes.
// It shares no text and no type with the crates that it is compared with.
#![tactic(auto)]

pub mod bits;
pub mod envelope;
pub mod gauges;
pub mod laws;
pub mod records;
pub mod survey;
pub mod terms;
