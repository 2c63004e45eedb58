// Sheet records: tested, read and written.
use crate::bits::{bit, bytes_of, height, number, push_number, put_front};
use crate::laws::{Sheet, check_name};
use crate::terms::{Denial, Failure, Line};
use std::alloc::{AllocError, Global};

// The line that the first three fields of a record say.
fn line_of(bytes: &[u8]) -> Line {
    Line {
        last: u32::try_from(number(bytes, 0, 12)).unwrap_or(0),
        slope: number(bytes, 12, 16),
        slack: number(bytes, 28, 16),
    }
}

// The first bit of the height of a position.
fn place_of(position: usize) -> usize {
    44usize.saturating_add(position.saturating_mul(16))
}

// What the fields of a record say, whether it is lawful or not.
pub fn sheet_of(heap: Global, bytes: &[u8]) -> Result<Sheet, AllocError> {
    let Line { last, slope, slack } = line_of(bytes);
    let heights = (0..=last as usize)
        .map(|position| height(bytes, place_of(position)))
        .collect(heap)?;
    Ok(Sheet {
        slope,
        slack,
        heights,
    })
}

// Whether any bit from a place on is 1.
fn has_bit_set(bytes: &[u8], from: usize) -> bool {
    (from..bytes.len().saturating_mul(8)).any(|i| bit(bytes, i) == 1)
}

// 1 to 6: what can be told before a height is read.
fn check_shape(bytes: &[u8]) -> Result<(), Denial> {
    if bytes.len() < 6 {
        return Err(Denial::bare(1));
    }
    let line = line_of(bytes);
    line.check()?;
    let end = place_of(line.last as usize).saturating_add(16);
    if bytes.len() != end.div_ceil(8) {
        return Err(Denial::bare(5));
    }
    if has_bit_set(bytes, end) {
        return Err(Denial::bare(6));
    }
    Ok(())
}

// The tests of a record as the gauge of a name: 7, 8 and 9 are those of its heights and of the name.
pub fn check(heap: Global, bytes: &[u8], name: u8) -> Result<(), Failure> {
    check_shape(bytes)?;
    sheet_of(heap, bytes)?.check_heights()?;
    Ok(check_name(name)?)
}

// The record of a sheet.
pub fn record_of(heap: Global, sheet: &Sheet) -> Result<Vec<u8>, AllocError> {
    let mut bits = Vec::new(heap);
    push_number(&mut bits, i64::from(sheet.line().last), 12)?;
    push_number(&mut bits, sheet.slope, 16)?;
    push_number(&mut bits, sheet.slack, 16)?;
    for height in &sheet.heights {
        push_number(&mut bits, *height, 16)?;
    }
    bytes_of(heap, &bits)
}

// Writes a sheet's record to the front of a buffer and answers its length: 2, 3, 4, 7, 8, 21.
pub fn write(heap: Global, buffer: &mut [u8], sheet: &Sheet) -> Result<u64, Failure> {
    sheet.check()?;
    let record = record_of(heap, sheet)?;
    Ok(put_front(buffer, &record)?)
}
