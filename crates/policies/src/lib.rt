// What the program `certify` does for the policy file: it surveys a sheet, fills the insurer's form and makes the certificate.
#![tactic(auto)]

mod lines;
pub mod paper;
pub mod policy;
mod probe;
mod units;
