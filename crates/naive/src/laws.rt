// The tests of names, steps and sheets.
use crate::terms::{Denial, HIGHEST, Line, MARK, Told, count_of};

// A slope, a slack and a list of heights, whether lawful or not.
#[derive(Drop, PartialEq, Eq, Debug)]
pub struct Sheet {
    pub slope: i64,
    pub slack: i64,
    pub heights: Vec<i64>,
}

// 9: the name of a gauge at the bottom is not 0.
pub fn check_name(name: u8) -> Result<(), Denial> {
    if name == 0 {
        return Err(Denial::bare(9));
    }
    Ok(())
}

// 10: a step is 1 to 1,000.
pub fn check_step(step: i64) -> Result<(), Denial> {
    if !(1..=1_000).contains(&step) {
        return Err(Denial::bare(10));
    }
    Ok(())
}

// Whether a height is within −20,000 to 20,000.
pub fn is_height(height: i64) -> bool {
    (-HIGHEST..=HIGHEST).contains(&height)
}

impl Sheet {
    // The line of a sheet. An empty list counts as last position 0.
    pub fn line(&self) -> Line {
        Line {
            last: count_of(&self.heights).saturating_sub(1),
            slope: self.slope,
            slack: self.slack,
        }
    }

    // The readable height at a position.
    pub fn readable(&self, p: u32) -> Option<i64> {
        self.heights
            .get(p as usize)
            .copied()
            .filter(|height| *height != MARK)
    }

    // The lowest position whose height is out of range and no mark.
    fn first_outside(&self) -> Option<u32> {
        (0..count_of(&self.heights)).find(|p| self
            .readable(*p)
            .is_some_and(|height| !is_height(height)))
    }

    // Whether both positions are readable and their heights break the law.
    fn is_broken(&self, p: u32, q: u32) -> bool {
        match (self.readable(p), self.readable(q)) {
            (Some(x), Some(y)) => x.wrapping_sub(y).wrapping_abs() > self.line().room(p, q),
            _ => false,
        }
    }

    // The lowest position that breaks the law with an earlier one, with the lowest such earlier one.
    fn first_break(&self) -> Option<(u32, u32)> {
        (0..count_of(&self.heights)).find_map(|later| {
            let earlier = (0..later).find(|earlier| self.is_broken(later, *earlier))?;
            Some((later, earlier))
        })
    }

    // 7 and 8: each height is in range or a mark, and any two readable ones keep the law.
    pub fn check_heights(&self) -> Result<(), Denial> {
        if let Some(p) = self.first_outside() {
            return Err(Denial {
                number: 7,
                told: Told::Position(p),
            });
        }
        if let Some((later, earlier)) = self.first_break() {
            return Err(Denial {
                number: 8,
                told: Told::Pair { later, earlier },
            });
        }
        Ok(())
    }

    // 2, 3, 4, 7 and 8: a sheet is lawful.
    pub fn check(&self) -> Result<(), Denial> {
        self.line().check()?;
        self.check_heights()
    }

    // A table is a sheet with a name.
    pub fn check_as_table(&self, name: u8) -> Result<(), Denial> {
        self.check()?;
        check_name(name)
    }
}
