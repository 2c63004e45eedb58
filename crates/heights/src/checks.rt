// The tests of a sheet, each number in its order. They take plain numbers: before its test there is no fact of a number that a type could hold.
ghost use Rattle.std.specs.Prelude.{◌≡◌, ℕ, ◌+◌, ◌≤◌, length};
ghost use Rattle.terms.specs.Limits.{last_max, slope_max, slack_max};
ghost use Rattle.heights.specs.Verdicts.{line_verdict, heights_verdict, sheet_verdict, name_verdict};

use crate::law::{Bound, Sheet};
use crate::list::Heights;
use terms::limits::{LAST_MAX, SLACK_MAX, SLOPE_MAX};
use terms::refusal::Refusal;

// The tests of a last position, a slope and a slack.
pub fn check_line(last: usize, slope: u32, slack: u32) -> Result<(), Refusal>
    ensures { result ≡ line_verdict last slope slack }
{
    if last == 0 || last > LAST_MAX as usize {
        return Err(Refusal::LastOutOfRange);
    }
    if slope == 0 || slope > SLOPE_MAX {
        return Err(Refusal::SlopeOutOfRange);
    }
    if slack > SLACK_MAX {
        return Err(Refusal::SlackOutOfRange);
    }
    Ok(())
}

// The test of the name of a gauge at the bottom of a stack.
pub fn check_name(name: u8) -> Result<(), Refusal>
    ensures { result ≡ name_verdict name }
{
    if name == 0 {
        Err(Refusal::NameZero)
    } else {
        Ok(())
    }
}

// The tests of the heights: the range of each, and then the law between every two.
pub fn check_heights<H: Heights>(heights: &H, slope: u32, slack: u32) -> Result<(), Refusal>
    requires { (length (H.Heights.list heights.now) ≤ last_max + 1) × ((slope ≤ slope_max) × (slack ≤ slack_max)) }
    ensures { result ≡ heights_verdict slope slack (H.Heights.list heights.now) }
{
    let sheet = Sheet {
        heights,
        bound: Bound { slope, slack },
    };
    if let Some(position) = sheet.find_outside() {
        return Err(Refusal::HeightOutOfRange {
            position: Some(position),
        });
    }
    if let Some((later, earlier)) = sheet.find_break() {
        return Err(Refusal::LawBroken { later, earlier });
    }
    Ok(())
}

// The tests of a sheet; an empty list counts as one whose last position is 0.
pub fn check_sheet<H: Heights>(heights: &H, slope: u32, slack: u32) -> Result<(), Refusal>
    ensures { result ≡ sheet_verdict slope slack (H.Heights.list heights.now) }
{
    check_line(heights.count().saturating_sub(1), slope, slack)?;
    check_heights(heights, slope, slack)
}
