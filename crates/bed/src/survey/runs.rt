// A run repeats high.
ghost use Rattle.std.specs.Prelude.{◌≡◌};
ghost use Rattle.surveys.specs.Calls.{run};
ghost use Rattle.logs.specs.Logs.{state_of};
ghost use Rattle.bed.specs.Seeking.{next_place, FreeNext};

use crate::survey::touches::{place, touch};
use gauges::gauge::Gauge;
use logs::log::Log;
use surveys::answers::{Course, Stop};

// The first stop in order that holds before a touch; else where high touches.
fn place_next(log: &Log, made: u32, budget: u32) -> Result<u16, Stop>
    ensures is { result ≡ next_place (state_of log.now) made budget }
    ensures free { FreeNext (state_of log.now) result }
{
    let position = place(log, log.high_aim())?;
    if made == budget {
        return Err(Stop::BudgetSpent);
    }
    Ok(position)
}

// The course of a run that made so many touches.
fn course(made: u32, stop: Stop) -> Course
    ensures { result ≡ record { made = made; stop = stop } }
{
    Course { made, stop }
}

// Repeats high, at most `budget` times.
pub(crate) fn repeat_high<G: Gauge>(gauge: &G, log: &mut Log, budget: u32) -> Course
    ensures answer { result ≡ (run (G.Gauge.meaning gauge.now).reading (state_of log.old) budget).answer }
    ensures state { state_of log.new ≡ (run (G.Gauge.meaning gauge.now).reading (state_of log.old) budget).after }
{
    // Counted by hand, since the loop has no other end than a stop, and `made` is in its answer.
    let mut made = 0;
    loop {
        match place_next(log, made, budget) {
            Ok(position) => {
                if let Err(fault) = touch(gauge, log, position) {
                    break course(made, Stop::from(fault));
                }
            }
            Err(stop) => break course(made, stop),
        }
        made += 1;
    }
}
