// The six calls. Each equals its definition, for the answer and for the whole state left; the gauge stays as it was.
ghost use Rattle.std.specs.Prelude.{◌≡◌};
ghost use Rattle.surveys.specs.Calls.{high, left, at, run, tol, ask};
ghost use Rattle.surveys.specs.Moments.{outcome};
ghost use Rattle.logs.specs.Logs.{state_of};

use crate::survey::Survey;
use crate::survey::runs::repeat_high;
use crate::survey::touches::{seek, touch};
use caps::Touch;
use envelope::looks::is_settled;
use gauges::gauge::Gauge;
use surveys::answers::{Answer, Course, Report};
use surveys::calls::Call;
use terms::limits::TOLERANCE_MAX;
use terms::refusal::Refusal;

impl<G: Gauge> Survey<G> {
    // Touches position 0 if nothing is touched, else the untouched position of largest cap, the lowest on a tie.
    pub fn high(&mut self) -> Result<Touch, Refusal>
        ensures gauge { self.new.gauge ≡ self.old.gauge }
        ensures answer { result ≡ (high (G.Gauge.meaning self.old.gauge).reading (state_of self.old.log)).answer }
        ensures state { state_of self.new.log ≡ (high (G.Gauge.meaning self.old.gauge).reading (state_of self.old.log)).after }
    {
        let aim = self.log.high_aim();
        seek(&self.gauge, &mut self.log, aim)
    }

    // Touches position 0 if nothing is touched, else in the lowest open gap the position of largest cap, the lowest on a tie.
    pub fn left(&mut self) -> Result<Touch, Refusal>
        ensures gauge { self.new.gauge ≡ self.old.gauge }
        ensures answer { result ≡ (left (G.Gauge.meaning self.old.gauge).reading (state_of self.old.log)).answer }
        ensures state { state_of self.new.log ≡ (left (G.Gauge.meaning self.old.gauge).reading (state_of self.old.log)).after }
    {
        let aim = self.log.left_aim();
        seek(&self.gauge, &mut self.log, aim)
    }

    // Touches the position, on a settled survey too.
    pub fn at(&mut self, position: u32) -> Result<Touch, Refusal>
        ensures gauge { self.new.gauge ≡ self.old.gauge }
        ensures answer { result ≡ (at (G.Gauge.meaning self.old.gauge).reading (state_of self.old.log) position).answer }
        ensures state { state_of self.new.log ≡ (at (G.Gauge.meaning self.old.gauge).reading (state_of self.old.log) position).after }
    {
        if u32::from(self.log.notes.line.last) < position {
            return Err(Refusal::PositionBeyondLast);
        }
        let place = position as u16;
        if self.log.is_touched(place) {
            return Err(Refusal::AlreadyTouched);
        }
        if self.log.is_full() {
            return Err(Refusal::LimitReached);
        }
        Ok(touch(&self.gauge, &mut self.log, place)?)
    }

    // Repeats high; answers the number of touches made, and why no more were.
    pub fn run(&mut self, budget: u32) -> Course
        ensures gauge { self.new.gauge ≡ self.old.gauge }
        ensures answer { result ≡ (run (G.Gauge.meaning self.old.gauge).reading (state_of self.old.log) budget).answer }
        ensures state { state_of self.new.log ≡ (run (G.Gauge.meaning self.old.gauge).reading (state_of self.old.log) budget).after }
    {
        repeat_high(&self.gauge, &mut self.log, budget)
    }

    // Sets the tolerance, and leaves every touch.
    pub fn tol(&mut self, tolerance: u32) -> Result<(), Refusal>
        ensures gauge { self.new.gauge ≡ self.old.gauge }
        ensures answer { result ≡ (tol (state_of self.old.log) tolerance).answer }
        ensures state { state_of self.new.log ≡ (tol (state_of self.old.log) tolerance).after }
    {
        if TOLERANCE_MAX < tolerance {
            return Err(Refusal::ToleranceOutOfRange);
        }
        self.log.set_tolerance(tolerance as u16);
        Ok(())
    }

    // Floor with its position, ceiling, touches, and whether settled.
    pub fn ask(&self) -> Result<Report, Refusal>
        ensures { result ≡ (ask (state_of self.now.log)).answer }
    {
        let seen = self.log.look().ok_or(Refusal::NothingTouched)?;
        Ok(Report {
            floor: seen.floor,
            ceiling: seen.ceiling,
            touches: self.log.number_of_touches(),
            settled: is_settled(Some(seen), self.log.notes.tolerance),
        })
    }

    // Any one of the six.
    pub fn call(&mut self, call: Call) -> Answer
        ensures gauge { self.new.gauge ≡ self.old.gauge }
        ensures answer { result ≡ (outcome (G.Gauge.meaning self.old.gauge).reading (state_of self.old.log) call).answer }
        ensures state { state_of self.new.log ≡ (outcome (G.Gauge.meaning self.old.gauge).reading (state_of self.old.log) call).after }
    {
        match call {
            Call::High => Answer::Touched(self.high()),
            Call::Left => Answer::Touched(self.left()),
            Call::At(position) => Answer::Touched(self.at(position)),
            Call::Run(budget) => Answer::Ran(self.run(budget)),
            Call::Tol(tolerance) => Answer::Set(self.tol(tolerance)),
            Call::Ask => Answer::Told(self.ask()),
        }
    }
}
