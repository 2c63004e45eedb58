// The words that every crate speaks: the limits, the fault of a reading, the refusal of a call.
#![tactic(auto)]

pub mod fault;
pub mod limits;
pub mod message;
pub mod refusal;
