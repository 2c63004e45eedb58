// What is answered.
use std::alloc::AllocError;

// The highest height; the lowest is its negative.
pub const HIGHEST: i64 = 20_000;

// In a list of heights: no reading at this position.
pub const MARK: i64 = -32_768;

// The most that a slope, a slack or a tolerance may be.
pub const MOST: i64 = 40_000;

// The greatest last position.
pub const FARTHEST: u32 = 4_000;

// Why a reading has no height, with the number of each cause.
#[derive(Clone, Copy, PartialEq, Eq, Debug)]
pub enum Cause {
    BeyondLast = 1,
    NoReading = 2,
}

// A reading without a height.
#[derive(Clone, Copy, PartialEq, Eq, Debug)]
pub struct Fault {
    // The number of its cause, since the numbers are compared too.
    pub cause: u8,
    // The position asked.
    pub position: u32,
    // The name of the gauge that failed, 0 for a layer.
    pub name: u8,
    // How many layers the fault came up through, at most 255.
    pub layers: u8,
}

// What a denial tells beside its number.
#[derive(Clone, Copy, PartialEq, Eq, Debug)]
pub enum Told {
    Nothing,
    Position(u32),
    Pair { later: u32, earlier: u32 },
    Fault(Fault),
}

// A refusal is one of 22 numbers with what it tells: a number and no name, since this second text states the rules' own numbers.
#[derive(Clone, Copy, PartialEq, Eq, Debug)]
pub struct Denial {
    pub number: u8,
    pub told: Told,
}

impl Denial {
    // A number that tells nothing.
    pub fn bare(number: u8) -> Denial {
        Denial {
            number,
            told: Told::Nothing,
        }
    }
}

// 16, with the fault whole.
impl From<Fault> for Denial {
    fn from(fault: Fault) -> Denial {
        Denial {
            number: 16,
            told: Told::Fault(fault),
        }
    }
}

// Why a call has no answer.
#[derive(Clone, Copy, PartialEq, Eq)]
pub enum Failure {
    Denied(Denial),
    OutOfMemory,
}

impl From<Denial> for Failure {
    fn from(denial: Denial) -> Failure {
        Failure::Denied(denial)
    }
}

impl From<AllocError> for Failure {
    fn from(_error: AllocError) -> Failure {
        Failure::OutOfMemory
    }
}

// What the rules answer; want of memory, of which they say nothing, is an error beside it.
pub fn ruled<T>(outcome: Result<T, Failure>) -> Result<Result<T, Denial>, AllocError> {
    match outcome {
        Ok(answer) => Ok(Ok(answer)),
        Err(Failure::Denied(denial)) => Ok(Err(denial)),
        Err(Failure::OutOfMemory) => Err(AllocError),
    }
}

// A touched position with its height.
#[derive(Clone, Copy, PartialEq, Eq, Debug)]
pub struct Touch {
    pub position: u32,
    pub height: i64,
}

// The last position, and by how much two heights may differ: slope × distance + slack.
#[derive(Clone, Copy, PartialEq, Eq, Debug)]
pub struct Line {
    pub last: u32,
    pub slope: i64,
    pub slack: i64,
}

impl Line {
    // How much heights at two positions may differ.
    pub fn room(&self, p: u32, q: u32) -> i64 {
        let distance = i64::from(p.abs_diff(q));
        self.slope.wrapping_mul(distance).wrapping_add(self.slack)
    }

    // 2, 3 and 4: the last position, the slope and the slack are in range.
    pub fn check(&self) -> Result<(), Denial> {
        if !(1..=FARTHEST).contains(&self.last) {
            return Err(Denial::bare(2));
        }
        if !(1..=MOST).contains(&self.slope) {
            return Err(Denial::bare(3));
        }
        if !(0..=MOST).contains(&self.slack) {
            return Err(Denial::bare(4));
        }
        Ok(())
    }
}

// The number of items, as far as it can be told.
pub fn count_of<T>(items: &[T]) -> u32 {
    u32::try_from(items.len()).unwrap_or(u32::MAX)
}
