// What the program `sheet` tells of a record, and makes of a text.
#![tactic(auto)]

pub mod failure;
pub mod pack;
pub mod repack;
pub mod summary;
pub mod text;
