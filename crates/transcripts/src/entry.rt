ghost use Rattle.std.specs.Prelude.{◌≡◌, [], ◌∷◌, ◌++◌, Some, string_bytes, OnOk};
ghost use Rattle.commands.specs.Lines.{line_end};
ghost use Rattle.transcripts.specs.Entries.{entry_text, text_of};
ghost use Rattle.transcripts.specs.Told.{touches_told, bounds_told};

use caps::Touch;
use std::alloc::{AllocError, Global};
use std::fmt;
use surveys::answers::Answer;

// The floor with its position, and the ceiling.
#[derive(Clone, Copy)]
pub struct Bounds {
    pub floor: Touch,
    pub ceiling: i32,
}

// What is printed for a line of the input.
#[derive(Clone, Copy)]
pub struct Entry {
    pub verb: &'static str,
    // The result number.
    pub number: u8,
    pub touches: u16,
    // None before the first touch.
    pub bounds: Option<Bounds>,
}

impl Entry {
    // The entry of a line with that verb and number, and with what ask answers after it.
    pub fn new(verb: &'static str, number: u8, told: Answer) -> Entry
        ensures { text_of result ≡ entry_text verb.now number (touches_told told) (bounds_told told) }
    {
        match told {
            Answer::Told(Ok(report)) => Entry {
                verb,
                number,
                touches: report.touches,
                bounds: Some(Bounds {
                    floor: report.floor,
                    ceiling: report.ceiling,
                }),
            },
            _ => Entry {
                verb,
                number,
                touches: 0,
                bounds: None,
            },
        }
    }
}

impl fmt::Display for Entry {
    ghost output = { λ e. Some (text_of e) };

    fn fmt<W: fmt::Write>(&self, f: &mut fmt::Formatter<W>) -> fmt::Result {
        let verb = self.verb;
        let number = self.number;
        let touches = self.touches;
        match self.bounds {
            None => write!(f, "{verb} {number} {touches} - - -"),
            Some(b) => write!(
                f,
                "{verb} {number} {touches} {} {} {}",
                b.floor.position, b.floor.height, b.ceiling,
            ),
        }
    }
}

// Appends the entry and a line end.
pub fn put_entry(out: &mut String, heap: Global, entry: Entry) -> Result<(), AllocError>
    ensures { OnOk result (string_bytes out.new ≡ string_bytes out.old ++ (text_of entry ++ line_end ∷ [])) }
{
    out.push_str(format!(in heap; "{entry}\n")?.as_str())
}
