// Reads a line where it lies.
ghost use Rattle.std.specs.Prelude.{◌≡◌, ◌+◌, ◌^◌, ◌<◌, ◌≤◌, length, not, position, ◌==◌};
ghost use Rattle.commands.specs.Pieces.{piece};
ghost use Rattle.commands.specs.Lines.{line_end, NextLine};
ghost use Rattle.commands.specs.Theorems.{LinesAreTheInput, CallsAsWritten, NumbersReadBack};
ghost use Rattle.commands.specs.Orders.{order, number_of, alone, numbered, before_space, after_space, order_of, NextOrder};

use crate::command::Command;
use crate::part::Part;
use texts::number::number;

const LINE_END: u8 = b'\n';

const SPACE: u8 = b' ';

// Where the first line that is not empty begins.
fn line_start(bytes: &[u8]) -> Option<usize>
    ensures { result ≡ position (λ b. not (b == line_end)) bytes.now }
{
    bytes.iter().position(|byte| *byte != LINE_END)
}

// Where the first byte of that value stands.
fn find(bytes: &[u8], wanted: u8) -> Option<usize>
    ensures { result ≡ position (λ b. b == wanted) bytes.now }
{
    bytes.iter().position(|byte| *byte == wanted)
}

// Where the line end stands that ends a line. A wrong edit of it so fails at its own contract.
fn line_end(bytes: &[u8]) -> Option<usize>
    ensures { result ≡ position (λ b. b == line_end) bytes.now }
{
    find(bytes, LINE_END)
}

// The number that 1 to 5 decimal digits write. A wrong edit of it so fails at its own contract.
fn number_said(digits: &[u8]) -> Option<u32>
    ensures { result ≡ number_of digits.now }
{
    number(digits)
}

// The command of a line that is one word.
fn read_alone(line: Part<'_>) -> Command<'_>
    ensures { order result ≡ alone (piece line.entry) }
{
    match line.bytes {
        b"high" => Command::High { verb: line },
        b"left" => Command::Left { verb: line },
        b"ask" => Command::Ask { verb: line },
        _ => Command::Unknown { line },
    }
}

// The command of a line that is a word, a space and a number.
fn read_numbered<'a>(line: Part<'a>, verb: Part<'a>, digits: Part<'a>, number: u32) -> Command<'a>
    ensures { order result ≡ numbered (piece line.entry) (piece verb.entry) (piece digits.entry) number }
{
    match verb.bytes {
        b"at" => Command::At {
            verb,
            digits,
            number,
        },
        b"run" => Command::Run {
            verb,
            digits,
            number,
        },
        b"tol" => Command::Tol {
            verb,
            digits,
            number,
        },
        _ => Command::Unknown { line },
    }
}

// What stands before the space at `n`.
fn first_word(line: Part<'_>, n: usize) -> Part<'_>
    requires { n ≤ length line.bytes.now }
    ensures { piece result ≡ before_space (piece line.entry) n }
{
    Part {
        bytes: &line.bytes[..n],
        place: line.place,
    }
}

// What stands after it.
fn rest_of(line: Part<'_>, n: usize) -> Part<'_>
    requires within { n < length line.bytes.now }
    requires fits { line.place + length line.bytes.now < 2 ^ 64 }
    ensures { piece result ≡ after_space (piece line.entry) n }
{
    Part {
        bytes: &line.bytes[n + 1..],
        place: line.place + n + 1,
    }
}

// The command of a line.
pub(crate) fn read_line(line: Part<'_>) -> Command<'_>
    requires { line.place + length line.bytes.now < 2 ^ 64 }
    ensures { order result ≡ order_of (piece line.entry) }
{
    let Some(n) = find(line.bytes, SPACE) else {
        return read_alone(line);
    };
    let digits = rest_of(line, n);
    let Some(number) = number_said(digits.bytes) else {
        return Command::Unknown { line };
    };
    read_numbered(line, first_word(line, n), digits, number)
}

// The first line that begins at `from` or after and is not empty.
pub(crate) fn next_line(input: &[u8], from: usize) -> Option<Part<'_>>
    requires { from ≤ length input.now }
    ensures { NextLine input.now from result }
{
    let place = from + line_start(&input[from..])?;
    let rest = &input[place..];
    let length = line_end(rest).unwrap_or(rest.len());
    Some(Part {
        bytes: &rest[..length],
        place,
    })
}

// The command of that line, and the place where the line ends.
pub(crate) fn next_command(input: &[u8], from: usize) -> Option<(Command<'_>, usize)>
    requires { from ≤ length input.now }
    ensures order { NextOrder input.now from result }
    ensures lines { LinesAreTheInput }
    ensures calls { CallsAsWritten }
    ensures numbers { NumbersReadBack }
{
    let line = next_line(input, from)?;
    Some((read_line(line), line.place + line.bytes.len()))
}
