// What the program `sheet` tells of a record, and makes of a text, as functions on values.
#![tactic(auto)]

mod lines;
pub mod packing;
pub mod report;
pub mod stack;
