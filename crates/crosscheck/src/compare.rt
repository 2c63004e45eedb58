// One table by the pass and by the naive way.
use crate::naive_way::{Place, Touches, View};
use crate::tables::Table;
use caps::{Outlook, Summit};
use envelope::looks::is_settled;
use envelope::touched::Touched;
use std::alloc::{AllocError, Global};

fn place_of(summit: Summit) -> Place {
    Place {
        cap: i64::from(summit.cap),
        position: summit.place,
    }
}

// Whether floor, ceiling and the place of the largest cap are those of the view; none of them before the first touch.
fn does_outlook_agree(outlook: Option<Outlook>, view: &View) -> bool {
    view.floor == outlook.map(|seen| seen.floor)
        && view.ceiling() == outlook.map(|seen| i64::from(seen.ceiling))
        && view.high() == outlook.and_then(|seen| seen.summit).map(place_of)
}

impl Table {
    // Whether the touches pass the test, and floor, ceiling, settled and both places agree.
    pub fn do_ways_agree(&self, heap: Global) -> Result<bool, AllocError> {
        let Table {
            line,
            touches,
            tolerance,
        } = self;
        let Some(touched) = Touched::new(*line, touches) else {
            return Ok(false);
        };
        let outlook = touched.look();
        let open = touched.lowest_open(*tolerance);
        let others = Touches {
            line: *line,
            list: touches,
        };
        let view = others.view(heap)?;
        Ok(
            does_outlook_agree(outlook, &view)
                && is_settled(outlook, *tolerance) == view.is_settled(*tolerance)
                && open.map(place_of) == view.lowest_open(*tolerance),
        )
    }
}
