// Gauges: what each owes, and the gauges at the bottom of a stack.
#![tactic(auto)]

pub mod gauge;
pub mod table;
pub mod tent;
#[cfg(test)]
mod tests;
