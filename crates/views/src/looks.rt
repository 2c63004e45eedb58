// Touches on a line: floor, ceiling, settled and the places to touch, by both texts.
use crate::words::IntoNaive;
use caps::{Line, Outlook, Touch};
use envelope::looks::is_settled;
use envelope::touched::Touched;
use naive::envelope::Touches;
use std::alloc::{AllocError, Global};

// Touches on a line and a tolerance; whether the heights keep the law does not matter.
#[derive(Drop, Debug)]
pub struct Look {
    pub line: Line,
    pub touches: Vec<Touch>,
    pub tolerance: u16,
}

// Whether floor, ceiling and the place of the largest cap are the naive ones.
fn does_outlook_agree(outlook: Option<Outlook>, others: Touches<'_>) -> bool {
    match outlook {
        Some(seen) => {
            others.floor() == Some(seen.floor.into_naive())
                && others.ceiling() == Some(seen.ceiling.into_naive())
                && others.highest_untouched() == seen.summit.into_naive()
        }
        None => others.floor().is_none() && others.ceiling().is_none(),
    }
}

impl Look {
    // Whether the touches pass the test, and floor, ceiling, settled and both places agree.
    pub fn do_texts_agree(&self, heap: Global) -> Result<bool, AllocError> {
        let touches = self.touches.as_slice();
        let Some(touched) = Touched::new(self.line, touches) else {
            return Ok(false);
        };
        let outlook = touched.look();
        let open = touched.lowest_open(self.tolerance);
        let list: Vec<naive::terms::Touch> = touches
            .iter()
            .map(|touch| touch.into_naive())
            .collect(heap)?;
        let others = Touches {
            line: self.line.into_naive(),
            list: &list,
        };
        let tolerance = i64::from(self.tolerance);
        Ok(
            does_outlook_agree(outlook, others)
                && is_settled(outlook, self.tolerance) == others.is_settled(tolerance)
                && open.into_naive() == others.lowest_open(heap, tolerance)?,
        )
    }
}
