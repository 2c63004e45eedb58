// Sheet records: checked, read where they lie, and written.
#![tactic(auto)]

mod layout;
mod packed;
pub mod record;
pub mod writer;
