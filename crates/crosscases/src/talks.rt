// What the command program prints for a record and an input.
use crate::case::{Case, Clerk, Subject};
use crate::papers::Papers;
use draws::chance::Chance;
use draws::scripts::{draw_input, fit_input};
use naive::records::sheet_of;
use naive_texts::transcript::transcript;
use std::alloc::{AllocError, Global};
use transcripts::print::{is_accepted, print};

// The bytes of a record and of an input.
#[derive(Drop, Debug)]
pub struct Talk {
    record: Vec<u8>,
    input: Vec<u8>,
}

impl Case for Talk {
    fn agrees(&self, clerk: &mut Clerk) -> Result<bool, AllocError> {
        let text = print(clerk.heap, &self.record, &self.input)?;
        let expected = transcript(clerk.heap, &self.record, &self.input)?;
        let refused = expected.as_str().starts_with("sheet");
        Ok(text == expected && is_accepted(&self.record) != refused)
    }
}

// The most lines that are drawn for an input.
const LINES: u16 = 24;

// The command program's text over a record; where a length is given, the input is cut or filled up to it.
#[derive(Clone, Copy)]
pub struct Talks {
    pub over: Papers,
    pub length: Option<usize>,
}

impl Subject for Talks {
    type Drawn = Talk;

    fn draw(&self, heap: Global, chance: &mut Chance, last: u16) -> Result<Talk, AllocError> {
        let record = self.over.draw_record(heap, chance, last)?;
        let sheet = sheet_of(heap, &record)?;
        let count = chance.between(0, LINES);
        let mut input = draw_input(heap, chance, &sheet, count)?;
        if let Some(length) = self.length {
            fit_input(&mut input, length)?;
        }
        Ok(Talk { record, input })
    }
}
