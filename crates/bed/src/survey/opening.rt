// Opening touches nothing.
ghost use Rattle.std.specs.Prelude.{◌≡◌};
ghost use Rattle.terms.specs.Limits.{touches_max};
ghost use Rattle.caps.specs.Touches.{WithinLimits};
ghost use Rattle.surveys.specs.States.{line_of, opened};
ghost use Rattle.logs.specs.Logs.{state_of};

use crate::survey::Survey;
use caps::Line;
use gauges::gauge::Gauge;
use logs::log::Log;
use logs::setting::Setting;
use terms::limits::TOUCHES_MAX;

// The setting of a survey whose tolerance is not yet set.
pub fn start() -> Setting
    ensures { (result.tolerance ≡ 0) × (result.limit ≡ touches_max) }
{
    Setting {
        tolerance: 0,
        limit: TOUCHES_MAX as u16,
    }
}

// The line of a gauge.
fn line<G: Gauge>(gauge: &G) -> Line
    ensures is { result ≡ line_of (G.Gauge.meaning gauge.now) }
    ensures limits { WithinLimits result }
{
    Line {
        last: gauge.last() as u16,
        slope: gauge.slope() as u16,
        slack: gauge.slack() as u16,
    }
}

impl<G: Gauge> Survey<G> {
    // A survey of the gauge with no touch.
    pub fn open(gauge: G, setting: Setting) -> Survey<G>
        ensures gauge { result.gauge ≡ gauge }
        ensures state { state_of result.log ≡ opened (G.Gauge.meaning gauge) setting.tolerance setting.limit }
    {
        let line = line(&gauge);
        Survey {
            gauge,
            log: Log::open(line, setting),
        }
    }

    // What the survey holds beside its gauge.
    pub fn log(&self) -> &Log
        ensures { result.now ≡ self.now.log }
    {
        &self.log
    }
}
