// The transcript for callers that are not Rattle: numbers for answers, and a length beside the buffer, as C takes them.
#![tactic(auto)]

ghost use Rattle.std.specs.Prelude.{◌≡◌, ◌≤◌, ◌++◌, length, drop};
ghost use Rattle.transcripts.specs.Transcripts.{printed};
ghost use Rattle.exports_text.specs.Texts.{room_number, handed, handed_length, HandedOut};

use std::alloc::Global;
use terms::refusal::Refusal;
use transcripts::print::print;

// The answer for want of memory.
const NO_MEMORY: u8 = 255;

// Writes the text to the front of the buffer.
fn copy_front(text: &[u8], buffer: &mut [u8])
    requires { length text.now ≤ length buffer.old }
    ensures { buffer.new ≡ text.now ++ drop (length text.now) buffer.old }
{
    buffer[0..text.len()].copy_from_slice(text);
}

// Hands out a text: 0 and the number of its bytes, or 21 where the buffer is too short.
fn hand_out(text: &[u8], buffer: &mut [u8], written: &mut usize) -> u8
    ensures answer { result ≡ room_number text.now buffer.old }
    ensures bytes { buffer.new ≡ handed text.now buffer.old }
    ensures written { written.new ≡ handed_length text.now buffer.old written.old }
{
    if buffer.len() < text.len() {
        return Refusal::BufferTooShort.number();
    }
    copy_front(text, buffer);
    *written = text.len();
    0
}

// What the program `survey` prints for the bytes of a record and of an input, at the front of the buffer; 255 where there is no memory for it.
#[unsafe(no_mangle)]
pub extern "C" fn survey_transcript(
    heap: Global,
    bytes: &[u8],
    input: &[u8],
    buffer: &mut [u8],
    written: &mut usize,
) -> u8
    ensures { HandedOut (printed bytes.now input.now) (record { answer = result; buffer = buffer.old; left = buffer.new; held = written.old; written = written.new }) }
{
    match print(heap, bytes, input) {
        Ok(text) => hand_out(text.as_bytes(), buffer, written),
        Err(_) => NO_MEMORY,
    }
}
