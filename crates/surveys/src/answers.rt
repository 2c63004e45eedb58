ghost use Rattle.std.specs.Prelude.{◌≡◌};
ghost use Rattle.surveys.specs.Numbers.{refusal_of, stop_number, answer_number};
ghost use Rattle.surveys.specs.declared.answers.Stop.TheVariants.{GaugeFault};

use caps::Touch;
use terms::fault::Fault;
use terms::refusal::Refusal;

// Why a run made no further touch.
#[derive(Clone, Copy, PartialEq, Eq, Debug)]
pub enum Stop {
    Settled,
    LimitReached,
    BudgetSpent,
    // The gauge answered this fault, which is passed on whole.
    GaugeFault(Fault),
}

// What a run did: how many touches it made, and why it made no more.
#[derive(Clone, Copy, PartialEq, Eq, Debug)]
pub struct Course {
    pub made: u32,
    pub stop: Stop,
}

// What a survey tells of itself after its first touch.
#[derive(Clone, Copy, PartialEq, Eq, Debug)]
pub struct Report {
    // The largest touched height, at the lowest position that has it.
    pub floor: Touch,
    // The largest cap.
    pub ceiling: i32,
    // The number of touches.
    pub touches: u16,
    // Whether the ceiling is at most the tolerance above the floor.
    pub settled: bool,
}

// The answer to a call.
#[derive(Clone, Copy, PartialEq, Eq, Debug)]
pub enum Answer {
    // To high, left and at.
    Touched(Result<Touch, Refusal>),
    // To run.
    Ran(Course),
    // To tol.
    Set(Result<(), Refusal>),
    // To ask.
    Told(Result<Report, Refusal>),
}

impl From<Fault> for Stop {
    ghost from_gives = { λ f s. s ≡ GaugeFault f };

    fn from(fault: Fault) -> Stop {
        Stop::GaugeFault(fault)
    }
}

impl From<Stop> for Refusal {
    ghost from_gives = { λ s r. r ≡ refusal_of s };

    fn from(stop: Stop) -> Refusal {
        match stop {
            Stop::Settled => Refusal::AlreadySettled,
            Stop::LimitReached => Refusal::LimitReached,
            Stop::BudgetSpent => Refusal::BudgetSpent,
            Stop::GaugeFault(fault) => Refusal::GaugeFault(fault),
        }
    }
}

impl Stop {
    // The number of each stop is that of its refusal.
    pub fn number(&self) -> u8
        ensures { result ≡ stop_number self.now }
    {
        Refusal::from(*self).number()
    }
}

impl Answer {
    // 0 where the call is accepted, else the number of its refusal; for a run the number of its stop.
    pub fn number(&self) -> u8
        ensures { result ≡ answer_number self.now }
    {
        match self {
            Answer::Touched(Err(refusal))
            | Answer::Set(Err(refusal))
            | Answer::Told(Err(refusal)) => refusal.number(),
            Answer::Ran(course) => course.stop.number(),
            _ => 0,
        }
    }
}
