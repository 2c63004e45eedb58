// The bytes of a certificate and the text of the command program a second time, as literally as they can be said.
#![tactic(auto)]

pub mod certificate;
pub mod commands;
pub mod transcript;
