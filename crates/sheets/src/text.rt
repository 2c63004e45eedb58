// A sheet as text: the slope, the slack, then the heights, `-` for a position without a reading.
// It is parted by white space of Unicode, with numbers as std parses them; `texts::sheet::parse` parts by ASCII and takes 1 to 5 digits with no `+`: two languages.
ghost use Rattle.std.specs.Prelude.{◌≡◌, negsuc, Ok, codes, ◌≢◌};
ghost use Rattle.std.specs.Int.{w32};
ghost use Rattle.std.specs.Str.Parse.{ParsesSigned, ParsesUnsigned};

use std::alloc::Global;
use terms::limits::UNREAD;
use texts::sheet::{Sheet, TextError};

// A word as a number of 32 bits.
fn number(word: &str, error: TextError) -> Result<u32, TextError>
    ensures { ParsesUnsigned 32 10 word.now result }
{
    word.parse::<u32>().map_err(|_| error)
}

// A word as a height: `-` for no reading, else a signed decimal number.
fn height(word: &str, position: usize) -> Result<i32, TextError>
    ensures dash { word.now ≡ codes "-" → result ≡ Ok (negsuc 32767) }
    ensures number { (word.now ≢ codes "-") → ParsesSigned w32 10 word.now result }
{
    if word == "-" {
        return Ok(UNREAD);
    }
    word.parse::<i32>()
        .map_err(|_| TextError::NoHeight { position })
}

// The sheet that a text says, its words parted by white space.
pub fn parse(heap: Global, text: &str) -> Result<Sheet, TextError> {
    // A word that is wanting is read as the empty one, which is no number.
    let mut words = text.split_whitespace();
    let slope = number(words.next().unwrap_or(""), TextError::NoSlope)?;
    let slack = number(words.next().unwrap_or(""), TextError::NoSlack)?;
    let mut heights = Vec::new(heap);
    for (position, word) in words.enumerate() {
        heights.push(height(word, position)?)?;
    }
    Ok(Sheet {
        slope,
        slack,
        heights,
    })
}
