// What a survey tells beyond its ceiling: how high each stretch between its touches can stand, and how many touches a search can make. It is for a host: it allocates.
#![tactic(auto)]

pub mod most;
pub mod spans;
