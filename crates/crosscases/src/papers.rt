// Records: tested when damaged, and written to buffers of every length.
use crate::arguments::{figure_for, heights_for};
use crate::case::{Case, Clerk, Subject};
use crate::figures::{draw_name, draw_odd_sheet};
use draws::chance::Chance;
use draws::damage::{Damage, spoil};
use draws::sheets::{Shape, draw_sheet};
use naive::laws::Sheet;
use naive::records::record_of;
use naive::terms::ruled;
use records::record::check;
use records::writer::write;
use std::alloc::{AllocError, Global};
use views::words::IntoNaive;

// The bytes of a record, damaged or not, and a gauge's name.
#[derive(Drop, Debug)]
pub struct Paper {
    bytes: Vec<u8>,
    name: u8,
}

impl Case for Paper {
    fn agrees(&self, clerk: &mut Clerk) -> Result<bool, AllocError> {
        let verdict = check(&self.bytes, self.name).into_naive();
        let expected = ruled(naive::records::check(clerk.heap, &self.bytes, self.name))?;
        clerk.note_verdict(&expected);
        Ok(verdict == expected)
    }
}

// The tests of a record.
#[derive(Clone, Copy)]
pub struct Papers {
    pub shape: Shape,
    pub damage: Damage,
}

impl Papers {
    // A record of the shape, damaged.
    pub fn draw_record(
        &self,
        heap: Global,
        chance: &mut Chance,
        last: u16,
    ) -> Result<Vec<u8>, AllocError> {
        let sheet = draw_sheet(heap, chance, self.shape, last)?;
        let mut bytes = record_of(heap, &sheet)?;
        spoil(chance, self.damage, &mut bytes)?;
        Ok(bytes)
    }
}

impl Subject for Papers {
    type Drawn = Paper;

    fn draw(&self, heap: Global, chance: &mut Chance, last: u16) -> Result<Paper, AllocError> {
        Ok(Paper {
            bytes: self.draw_record(heap, chance, last)?,
            name: draw_name(chance),
        })
    }
}

// A sheet, lawful or not, and the buffer that its record is to go to.
#[derive(Drop, Debug)]
pub struct Writing {
    sheet: Sheet,
    length: usize,
    filler: u8,
}

impl Case for Writing {
    fn agrees(&self, clerk: &mut Clerk) -> Result<bool, AllocError> {
        let heap = clerk.heap;
        let heights = heights_for(heap, &self.sheet.heights)?;
        let slope = figure_for(self.sheet.slope);
        let slack = figure_for(self.sheet.slack);
        let mut buffer = Vec::from_elem(heap, self.filler, self.length)?;
        let mut expected = Vec::from_elem(heap, self.filler, self.length)?;
        let answer = write(&mut buffer, slope, slack, &heights).into_naive();
        let length = ruled(naive::records::write(heap, &mut expected, &self.sheet))?;
        clerk.note_verdict(&length);
        Ok(answer == length && buffer == expected)
    }
}

// The writing of a record.
#[derive(Clone, Copy)]
pub struct Writings {
    pub shape: Shape,
}

// A sheet and a buffer that is too short, of the right length or longer.
impl Subject for Writings {
    type Drawn = Writing;

    fn draw(&self, heap: Global, chance: &mut Chance, last: u16) -> Result<Writing, AllocError> {
        let sheet = draw_odd_sheet(heap, chance, self.shape, last)?;
        let exact = sheet.heights.len().wrapping_mul(2).wrapping_add(6);
        let length = match chance.below(5) {
            0 => 0,
            1 => exact.wrapping_sub(1),
            2 => exact.wrapping_add(chance.below(9) as usize),
            _ => exact,
        };
        Ok(Writing {
            sheet,
            length,
            filler: chance.byte(),
        })
    }
}
