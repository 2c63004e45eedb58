// What the proved crates answer, in the words of the naive ones. Both words are of other crates, where no `From` can be written: a trait of this crate stands for it.
use caps::Summit;
use gauges::gauge::Gauge;
use naive::envelope::Place;
use naive::survey::{Answer, Call, Report};
use naive::terms::{Denial, Fault, Line, Told, Touch};
use surveys::answers::Stop;
use terms::refusal::Refusal;

pub trait IntoNaive {
    type Word;

    fn into_naive(self) -> Self::Word;
}

// None stays none.
impl<T: IntoNaive> IntoNaive for Option<T> {
    type Word = Option<T::Word>;

    fn into_naive(self) -> Option<T::Word> {
        self.map(|word| word.into_naive())
    }
}

// An error stays an error.
impl<T: IntoNaive, E: IntoNaive> IntoNaive for Result<T, E> {
    type Word = Result<T::Word, E::Word>;

    fn into_naive(self) -> Result<T::Word, E::Word> {
        self.map(|word| word.into_naive())
            .map_err(|error| error.into_naive())
    }
}

impl IntoNaive for () {
    type Word = ();

    fn into_naive(self) {}
}

// A height.
impl IntoNaive for i32 {
    type Word = i64;

    fn into_naive(self) -> i64 {
        i64::from(self)
    }
}

// A length.
impl IntoNaive for usize {
    type Word = u64;

    fn into_naive(self) -> u64 {
        self as u64
    }
}

// The number of the cause, and the rest as it is.
impl IntoNaive for terms::fault::Fault {
    type Word = Fault;

    fn into_naive(self) -> Fault {
        Fault {
            cause: self.cause.number(),
            position: self.position,
            name: self.gauge,
            layers: self.layers,
        }
    }
}

impl IntoNaive for terms::refusal::Told {
    type Word = Told;

    fn into_naive(self) -> Told {
        match self {
            terms::refusal::Told::Nothing => Told::Nothing,
            terms::refusal::Told::Position(position) => Told::Position(position),
            terms::refusal::Told::Pair { later, earlier } => Told::Pair { later, earlier },
            terms::refusal::Told::Fault(fault) => Told::Fault(fault.into_naive()),
        }
    }
}

// The number of a refusal, and what it tells.
impl IntoNaive for Refusal {
    type Word = Denial;

    fn into_naive(self) -> Denial {
        Denial {
            number: self.number(),
            told: self.tells().into_naive(),
        }
    }
}

impl IntoNaive for caps::Touch {
    type Word = Touch;

    fn into_naive(self) -> Touch {
        Touch {
            position: u32::from(self.position),
            height: i64::from(self.height),
        }
    }
}

impl IntoNaive for caps::Line {
    type Word = Line;

    fn into_naive(self) -> Line {
        Line {
            last: u32::from(self.last),
            slope: i64::from(self.slope),
            slack: i64::from(self.slack),
        }
    }
}

impl IntoNaive for Summit {
    type Word = Place;

    fn into_naive(self) -> Place {
        Place {
            position: u32::from(self.place),
            cap: i64::from(self.cap),
        }
    }
}

impl IntoNaive for Stop {
    type Word = Denial;

    fn into_naive(self) -> Denial {
        Refusal::from(self).into_naive()
    }
}

impl IntoNaive for surveys::answers::Report {
    type Word = Report;

    fn into_naive(self) -> Report {
        Report {
            floor: self.floor.into_naive(),
            ceiling: i64::from(self.ceiling),
            touches: u64::from(self.touches),
            settled: self.settled,
        }
    }
}

impl IntoNaive for surveys::answers::Course {
    type Word = Answer;

    fn into_naive(self) -> Answer {
        Answer::Ran {
            made: u64::from(self.made),
            stop: self.stop.into_naive(),
        }
    }
}

impl IntoNaive for surveys::answers::Answer {
    type Word = Result<Answer, Denial>;

    fn into_naive(self) -> Result<Answer, Denial> {
        match self {
            surveys::answers::Answer::Touched(touched) => touched.into_naive().map(Answer::Touched),
            surveys::answers::Answer::Ran(course) => Ok(course.into_naive()),
            surveys::answers::Answer::Set(set) => set.into_naive().map(|()| Answer::Set),
            surveys::answers::Answer::Told(told) => told.into_naive().map(Answer::Told),
        }
    }
}

// The line that a gauge tells.
pub fn line_of<G: Gauge>(gauge: &G) -> Line {
    Line {
        last: gauge.last(),
        slope: i64::from(gauge.slope()),
        slack: i64::from(gauge.slack()),
    }
}

// The proved crates' word for a naive call.
pub fn call_for(call: Call) -> surveys::calls::Call {
    match call {
        Call::High => surveys::calls::Call::High,
        Call::Left => surveys::calls::Call::Left,
        Call::At(position) => surveys::calls::Call::At(position),
        Call::Run(budget) => surveys::calls::Call::Run(budget),
        Call::Tol(tolerance) => surveys::calls::Call::Tol(tolerance),
        Call::Ask => surveys::calls::Call::Ask,
    }
}
