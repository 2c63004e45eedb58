// Inputs of the command program.
use crate::calls::draw_calls;
use crate::chance::Chance;
use naive::laws::Sheet;
use naive::survey::Call;
use std::alloc::{AllocError, Global};

// Lines that are near a command and none.
const ODD_LINES: [&str; 22] = [
    "High",
    "at",
    "at ",
    "at  3",
    "at 123456",
    "at -1",
    "run +1",
    "run 1 ",
    " high",
    "high ",
    "tol\t3",
    "ask\r",
    "left 2",
    "tol 3a",
    "hig",
    "highs",
    "at3",
    "tol 000000",
    "?",
    "\u{0}",
    "run 1.5",
    "asks",
];

// The text of a call, its number filled up by zeros to a width; numbers of more than five digits make it no command.
fn call_text(heap: Global, call: Call, width: usize) -> Result<String, AllocError> {
    match call {
        Call::High => format!(in heap; "high"),
        Call::Left => format!(in heap; "left"),
        Call::Ask => format!(in heap; "ask"),
        Call::At(n) => format!(in heap; "at {n:0width$}"),
        Call::Run(n) => format!(in heap; "run {n:0width$}"),
        Call::Tol(n) => format!(in heap; "tol {n:0width$}"),
    }
}

// Adds some bytes, each of any value but for the line end.
fn push_noise(chance: &mut Chance, input: &mut Vec<u8>) -> Result<(), AllocError> {
    let count = chance.between(1, 9);
    input.extend((0..count).map(|_| match chance.byte() {
        0x0A => 0,
        byte => byte,
    }))
}

// Adds a line: mostly a call, else nothing, noise or something near a command.
fn push_line(
    heap: Global,
    chance: &mut Chance,
    input: &mut Vec<u8>,
    call: Call,
) -> Result<(), AllocError> {
    match chance.below(10) {
        0 => Ok(()),
        1 => push_noise(chance, input),
        2 | 3 => input.extend_from_slice(ODD_LINES[chance.below(
            ODD_LINES.len() as u32,
        ) as usize].as_bytes()),
        4 => input.extend_from_slice(call_text(heap, call, 5)?.as_bytes()),
        _ => input.extend_from_slice(call_text(heap, call, 0)?.as_bytes()),
    }
}

// An input of some lines; half of the time the last one has no line end.
pub fn draw_input(
    heap: Global,
    chance: &mut Chance,
    sheet: &Sheet,
    lines: u16,
) -> Result<Vec<u8>, AllocError> {
    let mut input = Vec::new(heap);
    for call in &draw_calls(heap, chance, sheet, lines)? {
        push_line(heap, chance, &mut input, *call)?;
        input.push(0x0A)?;
    }
    if chance.once_in(2) {
        let _ = input.pop();
    }
    Ok(input)
}

// The line that fills an input up.
const FILLER: [u8; 5] = *b"high\n";

// The same input, cut or filled up with `high` lines to a length.
pub fn fit_input(input: &mut Vec<u8>, length: usize) -> Result<(), AllocError> {
    input.push(0x0A)?;
    let from = input.len();
    input.extend((from..length).map(|k| FILLER[k % FILLER.len()]))?;
    input.truncate(length);
    Ok(())
}
