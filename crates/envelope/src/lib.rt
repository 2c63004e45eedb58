// How high a line can stand beside its touches: floor, ceiling and the places to touch, in steps that grow with the touches alone.
#![tactic(auto)]

pub mod falls;
pub mod gaps;
pub mod looks;
mod roof;
pub mod touched;
