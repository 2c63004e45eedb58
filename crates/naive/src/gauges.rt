// What gauges mean: a line, and a reading for each position that is asked.
use crate::laws::{Sheet, check_name, is_height};
use crate::terms::{Cause, Denial, Fault, HIGHEST, Line, MOST, count_of};
use std::alloc::{AllocError, Global};

// A height or a fault.
pub type Reading = Result<i64, Fault>;

// A position that is asked, and its reading.
#[derive(Clone, Copy, PartialEq, Eq, Debug)]
pub struct Spot {
    pub position: u32,
    pub reading: Reading,
}

// What a gauge tells.
#[derive(Drop, PartialEq, Eq, Debug)]
pub struct Meaning {
    pub line: Line,
    pub spots: Vec<Spot>,
}

// How two gauges are joined.
#[derive(Clone, Copy, PartialEq, Eq, Debug)]
pub enum Joint {
    Higher,
    Sum,
}

impl Joint {
    // The height of two joined: the greater, or the sum kept within −20,000 and 20,000.
    fn height(self, first: i64, second: i64) -> i64 {
        match self {
            Joint::Higher => first.max(second),
            Joint::Sum => first.wrapping_add(second).clamp(-HIGHEST, HIGHEST),
        }
    }

    // The slope or slack of two joined: the greater, or the sum but at most 40,000.
    fn bound(self, first: i64, second: i64) -> i64 {
        match self {
            Joint::Higher => first.max(second),
            Joint::Sum => first.wrapping_add(second).min(MOST),
        }
    }
}

// A fault of the gauge of a name, 0 for a layer.
fn fault(cause: Cause, position: u32, name: u8) -> Fault {
    Fault {
        cause: cause as u8,
        position,
        name,
        layers: 0,
    }
}

impl Sheet {
    // The reading of a table, or of a record that says this sheet.
    fn reading(&self, name: u8, position: u32) -> Reading {
        if position >= count_of(&self.heights) {
            return Err(fault(Cause::BeyondLast, position, name));
        }
        self.readable(position)
            .ok_or(fault(Cause::NoReading, position, name))
    }

    // What the table or the record of a name means.
    pub fn meaning(&self, heap: Global, name: u8, asked: &[u32]) -> Result<Meaning, AllocError> {
        Meaning::of(heap, self.line(), asked, |position| {
            self.reading(name, position)
        })
    }
}

// The figures of a tent.
#[derive(Clone, Copy, PartialEq, Eq, Debug)]
pub struct Tent {
    pub last: u32,
    pub slope: i64,
    pub crown: u32,
    pub height: i64,
    pub name: u8,
}

impl Tent {
    // The line of a tent: no slack.
    fn line(&self) -> Line {
        Line {
            last: self.last,
            slope: self.slope,
            slack: 0,
        }
    }

    // 2, 3, 7 (a mark is no height either, and no position is told), 9, 11: a tent's figures.
    pub fn check(&self) -> Result<(), Denial> {
        self.line().check()?;
        if !is_height(self.height) {
            return Err(Denial::bare(7));
        }
        check_name(self.name)?;
        if self.crown > self.last {
            return Err(Denial::bare(11));
        }
        Ok(())
    }

    // The crown's height less slope × distance from the crown, but at least −20,000.
    fn reading(&self, position: u32) -> Reading {
        if position > self.last {
            return Err(fault(Cause::BeyondLast, position, self.name));
        }
        let distance = i64::from(position.abs_diff(self.crown));
        let fallen = self.height.wrapping_sub(self.slope.wrapping_mul(distance));
        Ok(fallen.max(-HIGHEST))
    }

    // What the tent means: all is readable.
    pub fn meaning(&self, heap: Global, asked: &[u32]) -> Result<Meaning, AllocError> {
        Meaning::of(heap, self.line(), asked, |position| self.reading(position))
    }
}

// A fault from below, one layer more.
fn raised(fault: Fault) -> Fault {
    Fault {
        layers: fault.layers.saturating_add(1),
        ..fault
    }
}

// The greatest multiple of the step at or below a height, found by going down from it.
fn multiple_below(height: i64, step: i64) -> i64 {
    (0..step)
        .map(|down| height.wrapping_sub(down))
        .find(|candidate| candidate.checked_rem(step) == Some(0))
        .unwrap_or(height)
}

// The heights of two gauges at one position: beyond their last one a fault of the layer, else the first is read, then the second.
fn both_heights(last: u32, first: Spot, second: Spot) -> Result<(i64, i64), Fault> {
    if first.position > last {
        return Err(fault(Cause::BeyondLast, first.position, 0));
    }
    let x = first.reading.map_err(raised)?;
    let y = second.reading.map_err(raised)?;
    Ok((x, y))
}

impl Meaning {
    // What a gauge of a line means that has this reading at each position.
    fn of<R: Fn(u32) -> Reading>(
        heap: Global,
        line: Line,
        asked: &[u32],
        reading: R,
    ) -> Result<Meaning, AllocError>
        requires { R.IsAlwaysCallable reading }
    {
        let spots = asked
            .iter()
            .map(|position| Spot {
                position: *position,
                reading: reading(*position),
            })
            .collect(heap)?;
        Ok(Meaning { line, spots })
    }

    // The reading of a position; none where it was not asked.
    pub fn read(&self, position: u32) -> Option<Reading> {
        self.spots
            .iter()
            .find(|spot| spot.position == position)
            .map(|spot| spot.reading)
    }

    // The spots of a layer that makes its readings of those below.
    fn altered<F: Fn(Reading) -> Reading>(
        &self,
        heap: Global,
        alter: F,
    ) -> Result<Vec<Spot>, AllocError>
        requires { F.IsAlwaysCallable alter }
    {
        self.spots
            .iter()
            .map(|spot| Spot {
                position: spot.position,
                reading: alter(spot.reading.map_err(raised)),
            })
            .collect(heap)
    }

    // Flip: the negated height; the line stays.
    pub fn flip(&self, heap: Global) -> Result<Meaning, AllocError> {
        Ok(Meaning {
            line: self.line,
            spots: self.altered(heap, |reading| reading.map(|height| height.wrapping_neg()))?,
        })
    }

    // Coarse: heights rounded down to a multiple of the step; the slack grows by the step − 1, at most 40,000.
    pub fn coarse(&self, heap: Global, step: i64) -> Result<Meaning, AllocError> {
        let wider = self.line.slack.wrapping_add(step).wrapping_sub(1);
        Ok(Meaning {
            line: Line {
                slack: wider.min(MOST),
                ..self.line
            },
            spots: self.altered(heap, |reading| {
                reading.map(|height| multiple_below(height, step).max(-HIGHEST))
            })?,
        })
    }

    // Higher or Sum of two gauges that were asked the same positions.
    pub fn joined(
        &self,
        heap: Global,
        joint: Joint,
        second: &Meaning,
    ) -> Result<Meaning, AllocError> {
        let line = Line {
            last: self.line.last.min(second.line.last),
            slope: joint.bound(self.line.slope, second.line.slope),
            slack: joint.bound(self.line.slack, second.line.slack),
        };
        let spots = self
            .spots
            .iter()
            .zip(&second.spots)
            .map(|(a, b)| Spot {
                position: a.position,
                reading: both_heights(line.last, *a, *b).map(|(x, y)| joint.height(x, y)),
            })
            .collect(heap)?;
        Ok(Meaning { line, spots })
    }

    // Higher: the greater height; the greater slope and slack.
    pub fn higher(&self, heap: Global, second: &Meaning) -> Result<Meaning, AllocError> {
        self.joined(heap, Joint::Higher, second)
    }

    // Sum: heights added, kept within −20,000 and 20,000; slopes and slacks added, at most 40,000.
    pub fn sum(&self, heap: Global, second: &Meaning) -> Result<Meaning, AllocError> {
        self.joined(heap, Joint::Sum, second)
    }
}
