// What a text of bytes says: its words, decimal numbers, and a sheet.
#![tactic(auto)]

pub mod number;
pub mod sheet;
pub mod words;
