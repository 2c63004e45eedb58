// The test of a line and its touches.
ghost use Rattle.std.specs.Prelude.{◌≡◌, ◌≤◌, Decides};
ghost use Rattle.terms.specs.Limits.{last_max};
ghost use Rattle.caps.specs.Touches.{WithinLimits, Sound};
ghost use Rattle.caps.specs.Places.{Follows, AllFollow};

use crate::{Line, Touch};
use terms::limits::{LAST_MAX, SLACK_MAX, SLOPE_MAX, TOUCHES_MAX, is_height};

// The places of a table of touches.
pub const PLACES: usize = TOUCHES_MAX as usize;

// Whether the three numbers of a line are within their limits. Not by the test of a sheet, which tells what is wrong: touches rest on no list of heights.
fn is_within_limits(line: Line) -> bool
    ensures { Decides result (WithinLimits line) }
{
    1 <= line.last
        && u32::from(line.last) <= LAST_MAX
        && 1 <= line.slope
        && u32::from(line.slope) <= SLOPE_MAX
        && u32::from(line.slack) <= SLACK_MAX
}

// Whether the touch lies on the line at `from` or after, its height within the limits.
fn does_follow(line: Line, from: u16, touch: Touch) -> bool
    ensures { Decides result (Follows line from touch) }
{
    from <= touch.position && touch.position <= line.last && is_height(i32::from(touch.height))
}

// Whether the touches lie on the line in rising order, their heights within the limits.
fn do_follow(line: Line, touches: &[Touch]) -> bool
    requires { line.last ≤ last_max }
    ensures { Decides result (AllFollow line 0 touches.now) }
{
    // A loop, since `all` carries no position on and a `try_fold` would hide the early answer in an Option.
    let mut from = 0;
    for touch in touches {
        if !does_follow(line, from, *touch) {
            return false;
        }
        from = touch.position + 1;
    }
    true
}

// Whether the line and its touches are within all limits, the touches in rising order of position.
pub fn are_touches(line: Line, touches: &[Touch]) -> bool
    ensures { Decides result (Sound line touches.now) }
{
    is_within_limits(line) && touches.len() <= PLACES && do_follow(line, touches)
}
