// The most touches that a search can make.
ghost use Rattle.std.specs.Prelude.{◌≡◌, ◌+◌, ◌≤◌};
ghost use Rattle.caps.specs.Caps.{spacing, most_touches};
ghost use Rattle.logs.specs.Logs.{state_of};

use caps::Line;
use logs::log::Log;

// The least distance of two touches of a search: 1 + (tolerance - slack) / slope rounded down, 1 where the slack exceeds the tolerance.
fn spacing(line: Line, tolerance: u16) -> u32
    requires { 1 ≤ line.slope }
    ensures { result ≡ spacing line tolerance }
{
    1 + u32::from(tolerance.saturating_sub(line.slack) / line.slope)
}

// The most positions of the survey's line that lie so far apart.
pub fn most_touches(log: &Log) -> u32
    ensures { result ≡ most_touches (state_of log.now).line (state_of log.now).tolerance }
{
    let line = log.notes.line;
    u32::from(line.last) / spacing(line, log.notes.tolerance) + 1
}
