// A sheet as text: the slope, the slack, then the heights, `-` for a position without a reading.
ghost use Rattle.std.specs.Prelude.{◌≡◌, Some, None, vec_items, MatchOption};
ghost use Rattle.texts.specs.Numbers.{number_of};
ghost use Rattle.texts.specs.Words.{words};
ghost use Rattle.texts.specs.Said.{figures, below_zero, after_dash, height_of, heights_said, first_number, others, sheet_said, Answers};
ghost use Rattle.texts.specs.declared.sheet.TextError.TheVariants.{NoMemory};

use crate::number::number;
use crate::words::next_word;
use std::alloc::{AllocError, AllocFailed, Global};
use std::error::Error;
use std::fmt;
use terms::limits::UNREAD;

// Why a text is no sheet.
#[derive(Drop, Debug)]
pub enum TextError {
    NoSlope,
    NoSlack,
    NoHeight { position: usize },
    NoMemory,
}

impl fmt::Display for TextError {
    fn fmt<W: fmt::Write>(&self, f: &mut fmt::Formatter<W>) -> fmt::Result {
        match self {
            TextError::NoSlope => write!(f, "the first word is no slope"),
            TextError::NoSlack => write!(f, "the second word is no slack"),
            TextError::NoHeight { position } => {
                write!(f, "the word of position {position} is no height")
            }
            TextError::NoMemory => write!(f, "no memory"),
        }
    }
}

impl Error for TextError {}

impl From<AllocError> for TextError {
    ghost from_gives = { λ _ r. r ≡ NoMemory };

    fn from(_error: AllocError) -> TextError {
        TextError::NoMemory
    }
}

impl<T: Drop> From<AllocFailed<T>> for TextError {
    ghost from_gives = { λ _ r. r ≡ NoMemory };

    fn from(_refused: AllocFailed<T>) -> TextError {
        TextError::NoMemory
    }
}

// The numbers that a text says; whether they are a lawful sheet is not asked here.
#[derive(Drop)]
pub struct Sheet {
    pub slope: u32,
    pub slack: u32,
    pub heights: Vec<i32>,
}

// The height that a word says.
fn height(word: &[u8]) -> Option<i32>
    ensures { result ≡ height_of word.now }
{
    match word {
        [] => None,
        [b'-'] => Some(UNREAD),
        [b'-', digits @ ..] => Some(-(number(digits)? as i32)),
        _ => Some(number(word)? as i32),
    }
}

// The number that the first word says, and the bytes after that word.
fn take_number(text: &[u8]) -> Option<(u32, &[u8])>
    ensures { MatchOption result (first_number (words text.now) ≡ None) (λ p. (first_number (words text.now) ≡ Some p.0) × (others (words text.now) ≡ words p.1.now)) }
{
    let (word, rest) = next_word(text)?;
    Some((number(word)?, rest))
}

// The heights that the words of a text say.
fn read_heights(heap: Global, text: &[u8]) -> Result<Vec<i32>, TextError>
    ensures { Answers vec_items (heights_said 0 (words text.now)) result }
{
    let mut heights = Vec::new(heap);
    let mut rest = text;
    while let Some((word, after)) = next_word(rest) {
        let position = heights.len();
        heights.push(height(word).ok_or(TextError::NoHeight { position })?)?;
        rest = after;
    }
    Ok(heights)
}

// The sheet that a text says.
pub fn parse(heap: Global, text: &[u8]) -> Result<Sheet, TextError>
    ensures { Answers figures (sheet_said (words text.now)) result }
{
    let (slope, rest) = take_number(text).ok_or(TextError::NoSlope)?;
    let (slack, rest) = take_number(rest).ok_or(TextError::NoSlack)?;
    Ok(Sheet {
        slope,
        slack,
        heights: read_heights(heap, rest)?,
    })
}
