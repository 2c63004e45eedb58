// Packs again what a record says.
ghost use Rattle.std.specs.Prelude.{◌≡◌, ◌+◌, true, ◌&&◌, is_ok, IfOk};
ghost use Rattle.std.specs.Str.{bytes_eq};
ghost use Rattle.sheets.specs.Entries.{entries};

use gauges::gauge::Gauge;
use records::record::Record;
use records::writer::write;
use std::alloc::{AllocError, Global};
use terms::limits::UNREAD;
use terms::refusal::Refusal;

// The readings of a gauge as a list of heights.
pub fn unpack<G: Gauge>(heap: Global, gauge: &G) -> Result<Vec<i32>, AllocError>
    ensures { IfOk result (λ v. v.items ≡ entries (G.Gauge.meaning gauge.now) ((G.Gauge.meaning gauge.now).last + 1)) }
{
    (0..gauge.last() + 1)
        .map(|position| gauge.read(position).unwrap_or(UNREAD))
        .collect(heap)
}

// Whether what was packed again is the record: it was taken, and its bytes are the same.
fn is_again(written: Result<usize, Refusal>, again: &[u8], bytes: &[u8]) -> bool
    ensures { result ≡ (is_ok written && bytes_eq again.now bytes.now) }
{
    written.is_ok() && again == bytes
}

// Whether packing what an accepted record says gives its bytes again.
pub fn packs_again(heap: Global, record: Record<'_>) -> Result<bool, AllocError>
    ensures { IfOk result (λ same. same ≡ true) }
{
    let bytes = record.bytes();
    let heights = unpack(heap, &record)?;
    let mut again = Vec::from_elem(heap, 0u8, bytes.len())?;
    let written = write(&mut again, record.slope(), record.slack(), &heights);
    Ok(is_again(written, &again, bytes))
}
