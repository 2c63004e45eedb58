// Tables of touches, drawn by chance.
ghost use Rattle.std.specs.Prelude.{◌≤◌, vec_len, IfOk};
ghost use Rattle.terms.specs.Limits.{touches_max};

use caps::sound::PLACES;
use caps::table::insert_touch;
use caps::{Line, Touch};
use draws::chance::Chance;
use std::alloc::{AllocError, Global};
use terms::limits::{HEIGHT_MAX, LAST_MAX};

// The highest height.
const HIGHEST: u16 = HEIGHT_MAX as u16;

// The positions of the longest bed.
const POSITIONS: u32 = LAST_MAX + 1;

// Which heights are touched: data, as the kinds are constants and those can hold no closure.
#[derive(Clone, Copy)]
pub enum Heights {
    // Any two keep the law.
    Lawful,
    Free,
}

// Touches on a line, in rising order of position, and a tolerance.
#[derive(Drop)]
pub struct Table {
    pub line: Line,
    pub touches: Vec<Touch>,
    pub tolerance: u16,
}

// A kind of table: how many are drawn, and from what.
#[derive(Clone, Copy)]
pub struct Kind {
    pub name: &'static str,
    pub tables: u32,
    // From the first to the second number: a constant can hold no `RangeInclusive`, which is made by a call.
    pub last: (u16, u16),
    pub slope: (u16, u16),
    pub slack: (u16, u16),
    // How many positions are drawn to be touched; one drawn again is passed over.
    pub draws: (u16, u16),
    pub heights: Heights,
}

// x, kept within the limits of heights.
fn height_of(x: i32) -> i16 {
    x.clamp(-HEIGHT_MAX, HEIGHT_MAX) as i16
}

// Heights that keep the law: a walk of at most the slope from position to position, and at most the slack on top.
fn draw_lawful(heap: Global, chance: &mut Chance, line: Line) -> Result<Vec<i16>, AllocError> {
    let mut base = height_of(chance.swing(HIGHEST));
    let mut heights = Vec::new(heap);
    // A loop: each height goes on from the one before.
    for _ in 0..POSITIONS {
        base = height_of(i32::from(base) + chance.swing(line.slope));
        let over = chance.between(0, line.slack);
        heights.push(height_of(i32::from(base) + i32::from(over)))?;
    }
    Ok(heights)
}

// Any heights.
fn draw_free(heap: Global, chance: &mut Chance) -> Result<Vec<i16>, AllocError> {
    (0..POSITIONS)
        .map(|_| height_of(chance.swing(HIGHEST)))
        .collect(heap)
}

// Touches positions that are drawn, in the order of the draws, as many as a table holds.
fn touch_some(
    heap: Global,
    chance: &mut Chance,
    line: Line,
    heights: &[i16],
    draws: u16,
) -> Result<Vec<Touch>, AllocError>
    ensures { IfOk result (λ touches. vec_len touches ≤ touches_max) }
{
    let nothing = Touch {
        position: 0,
        height: 0,
    };
    let mut touches = Vec::from_elem(heap, nothing, PLACES)?;
    let mut count = 0;
    for _ in 0..draws {
        let position = chance.between(0, line.last);
        let is_touched = touches[..count]
            .iter()
            .any(|touch| touch.position == position);
        if is_touched || count == touches.len() {
            continue;
        }
        if let Some(height) = heights.get(position as usize).copied() {
            insert_touch(&mut touches, count, Touch { position, height });
            count += 1;
        }
    }
    touches.truncate(count);
    Ok(touches)
}

impl Kind {
    fn line(&self, chance: &mut Chance) -> Line {
        Line {
            last: chance.between(self.last.0, self.last.1),
            slope: chance.between(self.slope.0, self.slope.1),
            slack: chance.between(self.slack.0, self.slack.1),
        }
    }

    // Draws one table, with a tolerance.
    pub fn draw(&self, heap: Global, chance: &mut Chance) -> Result<Table, AllocError> {
        let line = self.line(chance);
        let heights = match self.heights {
            Heights::Lawful => draw_lawful(heap, chance, line)?,
            Heights::Free => draw_free(heap, chance)?,
        };
        let draws = chance.between(self.draws.0, self.draws.1);
        let touches = touch_some(heap, chance, line, &heights, draws)?;
        let tolerance = chance.between(0, 300);
        Ok(Table {
            line,
            touches,
            tolerance,
        })
    }
}
