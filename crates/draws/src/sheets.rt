// Sheets of every kind.
use crate::chance::Chance;
use naive::laws::Sheet;
use naive::terms::{HIGHEST, MARK};
use std::alloc::{AllocError, Global};

// What a sheet looks like: data, since the kinds of cases are constants and those can hold no closure. All but the last keep the law.
#[derive(Clone, Copy, PartialEq, Eq, Debug)]
pub enum Shape {
    // One height.
    Flat,
    // Up and down at the full slope.
    Ramp,
    // One height and noise within the slack.
    Noise,
    // Steps within the slope and noise within the slack.
    Walk,
    // A walk with positions that have no reading.
    Holes,
    // The least and the greatest slopes, slacks and heights.
    Extreme,
    // Any heights.
    Free,
}

const TOP: u16 = HIGHEST as u16;

// Where the drawing of a sheet stands.
#[derive(Drop)]
struct Pen {
    base: i64,
    rising: bool,
}

// x, kept within the limits of heights.
fn kept(x: i64) -> i64 {
    x.clamp(-HIGHEST, HIGHEST)
}

// A slope for a sheet.
fn draw_slope(chance: &mut Chance, shape: Shape) -> u16 {
    // Drawn for every shape: what is drawn after it, and so the stored output, hangs on it.
    let most = [3, 40, 400, 4_000][chance.below(4) as usize];
    if shape == Shape::Extreme {
        [1, 39_999, 40_000][chance.below(3) as usize]
    } else {
        chance.between(1, most)
    }
}

// A slack for a sheet.
fn draw_slack(chance: &mut Chance, shape: Shape) -> u16 {
    if shape == Shape::Extreme {
        return [0, 1, 39_999, 40_000][chance.below(4) as usize];
    }
    let most = [0, 9, 300, 9_000][chance.below(4) as usize];
    chance.between(0, most)
}

// The first height of a sheet.
fn draw_start(chance: &mut Chance, shape: Shape) -> i64 {
    if shape == Shape::Extreme || chance.once_in(8) {
        if chance.once_in(2) { HIGHEST } else { -HIGHEST }
    } else {
        i64::from(chance.swing(TOP))
    }
}

impl Pen {
    // Goes one position on, by at most the slope.
    fn advance(&mut self, chance: &mut Chance, shape: Shape, slope: u16) {
        let step = match shape {
            Shape::Flat | Shape::Noise => 0,
            Shape::Ramp if self.rising => i64::from(slope),
            Shape::Ramp => -i64::from(slope),
            _ => i64::from(chance.swing(slope)),
        };
        self.base = kept(self.base.wrapping_add(step));
        if self.base == HIGHEST || self.base == -HIGHEST || chance.once_in(16) {
            self.rising = !self.rising;
        }
    }

    // The height here, by at most the slack above.
    fn height(&self, chance: &mut Chance, shape: Shape, slack: u16) -> i64 {
        let over = match shape {
            Shape::Flat | Shape::Ramp => 0,
            _ => chance.between(0, slack),
        };
        match shape {
            Shape::Free => i64::from(chance.swing(TOP)),
            Shape::Holes if chance.once_in(4) => MARK,
            Shape::Extreme if chance.once_in(16) => MARK,
            _ => kept(self.base.wrapping_add(i64::from(over))),
        }
    }
}

// A sheet of a shape with a last position.
pub fn draw_sheet(
    heap: Global,
    chance: &mut Chance,
    shape: Shape,
    last: u16,
) -> Result<Sheet, AllocError> {
    let slope = draw_slope(chance, shape);
    let slack = draw_slack(chance, shape);
    let mut pen = Pen {
        base: draw_start(chance, shape),
        rising: chance.once_in(2),
    };
    let mut heights = Vec::new(heap);
    // A loop: each height is drawn where the one before left the pen.
    for _ in 0..=last {
        heights.push(pen.height(chance, shape, slack))?;
        pen.advance(chance, shape, slope);
    }
    Ok(Sheet {
        slope: i64::from(slope),
        slack: i64::from(slack),
        heights,
    })
}
