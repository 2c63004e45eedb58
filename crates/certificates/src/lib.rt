// The certificate of a settled survey: what its touches say of every position, in bytes for the policy file.
#![tactic(auto)]

mod layout;
pub mod writer;
