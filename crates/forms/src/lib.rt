// What the program `certify` does for the policy file: it surveys a sheet, prints the insurer's form and writes the certificate.
#![tactic(auto)]

pub mod command;
mod output;
