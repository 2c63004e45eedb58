// Cases that look drawn by chance, and are the same in every run.
#![tactic(auto)]

pub mod calls;
pub mod chance;
pub mod damage;
pub mod scripts;
pub mod sheets;
