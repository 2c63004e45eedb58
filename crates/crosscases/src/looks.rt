// Touches on a line, drawn from a sheet.
use crate::case::{Case, Clerk, Subject};
use caps::{Line, Touch};
use draws::chance::Chance;
use draws::sheets::{Shape, draw_sheet};
use naive::laws::Sheet;
use naive::terms::MARK;
use std::alloc::{AllocError, Global};
use views::looks::Look;

impl Case for Look {
    fn agrees(&self, clerk: &mut Clerk) -> Result<bool, AllocError> {
        self.do_texts_agree(clerk.heap)
    }
}

// Touches on a line, about one in so many positions.
#[derive(Clone, Copy)]
pub struct Looks {
    pub shape: Shape,
    pub one_in: u32,
}

impl Looks {
    // Touches some positions of a sheet, 256 at most.
    fn touch_some(
        &self,
        heap: Global,
        chance: &mut Chance,
        sheet: &Sheet,
    ) -> Result<Vec<Touch>, AllocError> {
        (0..)
            .zip(&sheet.heights)
            .filter(|(_, height)| **height != MARK && chance.once_in(self.one_in))
            .map(|(position, height)| Touch {
                position,
                height: i16::try_from(*height).unwrap_or(0),
            })
            .take(256)
            .collect(heap)
    }
}

impl Subject for Looks {
    type Drawn = Look;

    fn draw(&self, heap: Global, chance: &mut Chance, last: u16) -> Result<Look, AllocError> {
        let sheet = draw_sheet(heap, chance, self.shape, last)?;
        let touches = self.touch_some(heap, chance, &sheet)?;
        let line = Line {
            last,
            slope: u16::try_from(sheet.slope).unwrap_or(1),
            slack: u16::try_from(sheet.slack).unwrap_or(0),
        };
        let most = if chance.once_in(2) { 300 } else { 40_000 };
        let tolerance = chance.between(0, most);
        Ok(Look {
            line,
            touches,
            tolerance,
        })
    }
}
