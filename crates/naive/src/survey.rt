// The survey and its six calls.
use crate::envelope::Touches;
use crate::gauges::Meaning;
use crate::terms::{Denial, Failure, Line, MOST, Touch, ruled};
use std::alloc::{AllocError, Global};

// One call.
#[derive(Clone, Copy, PartialEq, Eq, Debug)]
pub enum Call {
    High,
    Left,
    At(u32),
    Run(u32),
    Tol(u32),
    Ask,
}

// What ask tells.
#[derive(Clone, Copy, PartialEq, Eq, Debug)]
pub struct Report {
    pub floor: Touch,
    pub ceiling: i64,
    pub touches: u64,
    pub settled: bool,
}

// The answer to a call that is not refused.
#[derive(Clone, Copy, PartialEq, Eq, Debug)]
pub enum Answer {
    // To high, left and at.
    Touched(Touch),
    // To run: how many touches it made, and why it made no more.
    Ran { made: u64, stop: Denial },
    // To tol.
    Set,
    // To ask.
    Told(Report),
}

// 0 where a call is accepted, else the number of its refusal; for a run the number of its stop.
pub fn result_number(answer: Result<Answer, Denial>) -> u8 {
    match answer {
        Ok(Answer::Ran { stop, .. }) => stop.number,
        Ok(_) => 0,
        Err(denial) => denial.number,
    }
}

// A survey but for its gauge.
#[derive(Drop, PartialEq, Eq, Debug)]
pub struct Survey {
    pub line: Line,
    pub tolerance: i64,
    pub limit: u64,
    // In rising order of position.
    pub touches: Vec<Touch>,
}

// 17: a tolerance is at most 40,000.
fn check_tolerance(tolerance: i64) -> Result<(), Denial> {
    if tolerance > MOST {
        return Err(Denial::bare(17));
    }
    Ok(())
}

// 17 and 18: the tolerance is at most 40,000, the limit 1 to 256.
pub fn check_opening(tolerance: i64, limit: u64) -> Result<(), Denial> {
    check_tolerance(tolerance)?;
    if !(1..=256).contains(&limit) {
        return Err(Denial::bare(18));
    }
    Ok(())
}

impl Survey {
    // Opening touches nothing.
    pub fn open(heap: Global, line: Line, tolerance: i64, limit: u64) -> Survey {
        Survey {
            line,
            tolerance,
            limit,
            touches: Vec::new(heap),
        }
    }

    // The touches on the line.
    pub fn on_line(&self) -> Touches<'_> {
        Touches {
            line: self.line,
            list: &self.touches,
        }
    }

    fn is_settled(&self) -> bool {
        self.on_line().is_settled(self.tolerance)
    }

    // 14: the touches equal the limit.
    fn check_limit(&self) -> Result<(), Denial> {
        if self.touches.len() as u64 == self.limit {
            return Err(Denial::bare(14));
        }
        Ok(())
    }

    // 13 and 14, the tests before a touch of a search.
    fn check_search(&self) -> Result<(), Denial> {
        if self.is_settled() {
            return Err(Denial::bare(13));
        }
        self.check_limit()
    }

    // 11, 12 and 14, the tests before a touch of a position.
    fn check_at(&self, position: u32) -> Result<(), Denial> {
        if position > self.line.last {
            return Err(Denial::bare(11));
        }
        if self.on_line().is_touched(position) {
            return Err(Denial::bare(12));
        }
        self.check_limit()
    }

    // Adds a touch, in rising order of position.
    fn add(&mut self, touch: Touch) -> Result<(), AllocError> {
        self.touches.push(touch)?;
        self.touches.sort_by_key(|touch| touch.position)
    }

    // Reads the gauge at a position and keeps the height; 16 where it answers a fault, and nothing changes.
    fn touch(&mut self, gauge: &Meaning, position: u32) -> Result<Touch, Failure> {
        // No case asks a gauge of fewer positions than its line has.
        let reading = gauge.read(position).ok_or(Denial::bare(0))?;
        let height = reading.map_err(Denial::from)?;
        let touch = Touch { position, height };
        self.add(touch)?;
        Ok(touch)
    }

    // Touches position 0 if nothing is touched, else the untouched position of largest cap.
    fn high(&mut self, gauge: &Meaning) -> Result<Touch, Failure> {
        self.check_search()?;
        let highest = self.on_line().highest_untouched();
        self.touch(gauge, highest.map_or(0, |place| place.position))
    }

    // Touches position 0 if nothing is touched, else the place of largest cap in the lowest open gap.
    fn left(&mut self, heap: Global, gauge: &Meaning) -> Result<Touch, Failure> {
        self.check_search()?;
        let open = self.on_line().lowest_open(heap, self.tolerance)?;
        self.touch(gauge, open.map_or(0, |place| place.position))
    }

    // Touches a position: 11, 12, 14, 16.
    fn at(&mut self, gauge: &Meaning, position: u32) -> Result<Touch, Failure> {
        self.check_at(position)?;
        self.touch(gauge, position)
    }

    // Repeats high; before each touch 13, 14 and 15 are tested.
    fn run(&mut self, gauge: &Meaning, budget: u32) -> Result<Answer, AllocError> {
        let budget = u64::from(budget);
        for made in 0..budget {
            if let Err(stop) = ruled(self.high(gauge))? {
                return Ok(Answer::Ran { made, stop });
            }
        }
        let stop = self.check_search().err().unwrap_or(Denial::bare(15));
        Ok(Answer::Ran { made: budget, stop })
    }

    // Sets the tolerance: 17.
    fn tol(&mut self, tolerance: u32) -> Result<(), Denial> {
        let tolerance = i64::from(tolerance);
        check_tolerance(tolerance)?;
        self.tolerance = tolerance;
        Ok(())
    }

    // Floor, ceiling, touches and whether settled: 19.
    pub fn ask(&self) -> Result<Report, Denial> {
        let touches = self.on_line();
        let floor = touches.floor().ok_or(Denial::bare(19))?;
        let ceiling = touches.ceiling().ok_or(Denial::bare(19))?;
        Ok(Report {
            floor,
            ceiling,
            touches: self.touches.len() as u64,
            settled: self.is_settled(),
        })
    }

    // Any one call.
    pub fn call(&mut self, heap: Global, gauge: &Meaning, call: Call) -> Result<Answer, Failure> {
        let answer = match call {
            Call::High => Answer::Touched(self.high(gauge)?),
            Call::Left => Answer::Touched(self.left(heap, gauge)?),
            Call::At(position) => Answer::Touched(self.at(gauge, position)?),
            Call::Run(budget) => self.run(gauge, budget)?,
            Call::Tol(tolerance) => {
                self.tol(tolerance)?;
                Answer::Set
            }
            Call::Ask => Answer::Told(self.ask()?),
        };
        Ok(answer)
    }
}
