// The tests of tables, tents, steps and openings, on figures in and out of range.
use crate::arguments::{figure_for, heights_for, tent_for};
use crate::case::{Case, Clerk, Subject};
use draws::chance::Chance;
use draws::damage::draw_odd_height;
use draws::sheets::{Shape, draw_sheet};
use gauges::table::Table;
use layers::step::Step;
use logs::setting::Setting;
use naive::gauges::Tent;
use naive::laws::{Sheet, check_step};
use naive::survey::check_opening;
use naive::terms::Denial;
use std::alloc::{AllocError, Global};
use terms::refusal::Refusal;
use views::words::IntoNaive;

// A table, a tent, a step and an opening, each in range or out of it.
#[derive(Drop, Debug)]
pub struct Figures {
    sheet: Sheet,
    name: u8,
    tent: Tent,
    step: u32,
    tolerance: u32,
    limit: u32,
}

// The verdict on something that is made; what was made is let go.
fn made<T: Drop>(made: Result<T, Refusal>) -> Result<(), Denial> {
    made.map(|_made| ()).into_naive()
}

impl Figures {
    // Whether the table is refused alike.
    fn do_tables_agree(&self, clerk: &mut Clerk) -> Result<bool, AllocError> {
        let sheet = &self.sheet;
        let heights = heights_for(clerk.heap, &sheet.heights)?;
        let slope = figure_for(sheet.slope);
        let slack = figure_for(sheet.slack);
        let verdict = Table::check(&heights, slope, slack, self.name).into_naive();
        let expected = sheet.check_as_table(self.name);
        clerk.note_verdict(&expected);
        Ok(verdict == expected)
    }

    // Whether the tent, the step and the opening are refused alike.
    fn do_small_agree(&self, clerk: &mut Clerk) -> bool {
        let tent = self.tent.check();
        let step = check_step(i64::from(self.step));
        let opening = check_opening(i64::from(self.tolerance), u64::from(self.limit));
        clerk.note_verdict(&tent);
        clerk.note_verdict(&step);
        clerk.note_verdict(&opening);
        made(tent_for(self.tent)) == tent
            && made(Step::new(self.step)) == step
            && made(Setting::new(self.tolerance, self.limit)) == opening
    }
}

impl Case for Figures {
    fn agrees(&self, clerk: &mut Clerk) -> Result<bool, AllocError> {
        Ok(self.do_tables_agree(clerk)? && self.do_small_agree(clerk))
    }
}

// Any name, often 0.
pub fn draw_name(chance: &mut Chance) -> u8 {
    if chance.once_in(4) { 0 } else { chance.byte() }
}

// A sheet with an odd height somewhere, half of the time; now and then another slope or slack, or no second height.
pub fn draw_odd_sheet(
    heap: Global,
    chance: &mut Chance,
    shape: Shape,
    last: u16,
) -> Result<Sheet, AllocError> {
    let mut sheet = draw_sheet(heap, chance, shape, last)?;
    if chance.once_in(8) {
        sheet.slope = i64::from(chance.about(40_000));
    }
    if chance.once_in(8) {
        sheet.slack = i64::from(chance.about(40_000));
    }
    if chance.once_in(16) {
        sheet.heights.truncate(chance.below(2) as usize);
    }
    let place = chance.below(u32::from(last) * 2) as usize;
    if let Some(height) = sheet.heights.get_mut(place) {
        *height = draw_odd_height(chance, *height);
    }
    Ok(sheet)
}

// A tent whose figures are in range or out of it.
fn draw_odd_tent(chance: &mut Chance) -> Tent {
    let last = chance.about(4_000);
    Tent {
        last,
        slope: i64::from(chance.about(40_000)),
        crown: chance.below(last.saturating_add(2)),
        height: draw_odd_height(chance, 0),
        name: draw_name(chance),
    }
}

// The tests of a table, a tent, a step and an opening.
#[derive(Clone, Copy)]
pub struct Tests {
    pub shape: Shape,
}

// Figures that are in range or out of it, each on its own.
impl Subject for Tests {
    type Drawn = Figures;

    fn draw(&self, heap: Global, chance: &mut Chance, last: u16) -> Result<Figures, AllocError> {
        Ok(Figures {
            sheet: draw_odd_sheet(heap, chance, self.shape, last)?,
            name: draw_name(chance),
            tent: draw_odd_tent(chance),
            step: chance.about(1_000),
            tolerance: chance.about(40_000),
            limit: chance.about(256),
        })
    }
}
