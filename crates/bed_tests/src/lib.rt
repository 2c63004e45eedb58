// Tests of surveys: every refusal and stop by an input that meets it, and the worked example.
#![tactic(auto)]

#[cfg(test)]
mod example;
#[cfg(test)]
mod refusals;
#[cfg(test)]
mod runs;
#[cfg(test)]
mod sizes;
