// Layers: gauges made of other gauges, which they hold by value.
#![tactic(auto)]

pub mod coarse;
pub mod flip;
pub mod higher;
mod pair;
pub mod step;
pub mod sum;
#[cfg(test)]
mod tests;
