// A sheet's record in memory of its own.
ghost use Rattle.std.specs.Prelude.{◌≡◌, ◌+◌, ◌*◌, length, Ok, OnOk};
ghost use Rattle.records.specs.Sheet.{sheet_with, record_of};
ghost use Rattle.records.specs.Verdict.{verdict_of};
ghost use Rattle.sheets.specs.Packs.{PackedAs};

use crate::failure::Failure;
use heights::checks::check_sheet;
use heights::list::Lent;
use records::writer::write;
use std::alloc::Global;

// Makes a buffer of the right length the record of a lawful sheet.
fn fill(bytes: &mut [u8], slope: u32, slack: u32, heights: &[i32])
    requires lawful { verdict_of (sheet_with slope slack heights.now) ≡ Ok tt }
    requires room { length bytes.old ≡ 6 + 2 * length heights.now }
    ensures { bytes.new ≡ record_of (sheet_with slope slack heights.now) }
{
    // The sheet is lawful and the buffer long enough, so that it is not refused.
    let _ = write(bytes, slope, slack, heights);
}

// The bytes of a sheet's record. Slope, slack and heights come apart, as `write` takes them: before the test there is no fact that a type could hold.
pub fn pack(heap: Global, slope: u32, slack: u32, heights: &[i32]) -> Result<Vec<u8>, Failure>
    ensures made { PackedAs slope slack heights.now result }
    ensures lawful { OnOk result (verdict_of (sheet_with slope slack heights.now) ≡ Ok tt) }
{
    check_sheet(&Lent { heights }, slope, slack)?;
    let mut bytes = Vec::from_elem(heap, 0u8, 6 + 2 * heights.len())?;
    fill(&mut bytes, slope, slack, heights);
    Ok(bytes)
}
