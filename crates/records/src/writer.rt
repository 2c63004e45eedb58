ghost use Rattle.std.specs.Prelude.{◌≡◌, ℕ, ◌+◌, ◌-◌, ◌*◌, ◌≤◌, ◌++◌, length, drop};
ghost use Rattle.terms.specs.Limits.{last_max, slope_max, slack_max};
ghost use Rattle.records.specs.Sheet.{record_of, sheet_with};
ghost use Rattle.records.specs.Verdict.{write_verdict, write_leaves};
ghost use Rattle.records.specs.Theorem.{OneRecordEach};
ghost use Rattle.records.specs.Examples.{RecordExamples};

use crate::layout::{LAST, SLACK, SLOPE, height_at, size};
use heights::checks::check_sheet;
use heights::list::Lent;
use terms::refusal::Refusal;

// Writes the record of a sheet to the front of `buf`.
fn write_fields(buf: &mut [u8], slope: u32, slack: u32, heights: &[i32])
    requires sheet { (2 ≤ length heights.now) × ((length heights.now ≤ last_max + 1) × ((slope ≤ slope_max) × (slack ≤ slack_max))) }
    requires room { 6 + 2 * length heights.now ≤ length buf.old }
    ensures { buf.new ≡ record_of (sheet_with slope slack heights.now) ++ drop (6 + 2 * length heights.now) buf.old }
{
    LAST.put(buf, (heights.len() - 1) as u32);
    SLOPE.put(buf, slope);
    SLACK.put(buf, slack);
    for (position, height) in heights.iter().enumerate() {
        height_at(position).put_signed(buf, *height);
    }
}

// Writes a sheet's record to the front of `buf` and answers how many bytes it has; a refused sheet leaves `buf` as it was.
#[tactic(auto, using(crate::proofs::Sheets::one_record_each, crate::proofs::Shown::record_examples))]
pub fn write(buf: &mut [u8], slope: u32, slack: u32, heights: &[i32]) -> Result<usize, Refusal>
    ensures answer { result ≡ write_verdict (sheet_with slope slack heights.now) (length buf.old) }
    ensures bytes { buf.new ≡ write_leaves (sheet_with slope slack heights.now) buf.old }
    ensures unique { OneRecordEach }
    ensures examples { RecordExamples }
{
    check_sheet(&Lent { heights }, slope, slack)?;
    let size = size(heights.len());
    if buf.len() < size {
        return Err(Refusal::BufferTooShort);
    }
    write_fields(buf, slope, slack, heights);
    Ok(size)
}
