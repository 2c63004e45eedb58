// Lists of calls to surveys of stacks of gauges: readings, answers, states, stretches and certificates.
use crate::arguments::{figure_for, heights_for, tent_for};
use crate::case::{Case, Clerk, Subject};
use crate::ends::End;
use crate::stacks::Meant;
use bed::survey::Survey;
use draws::calls::{draw_calls, draw_limit, draw_tolerance};
use draws::chance::Chance;
use draws::sheets::{Shape, draw_sheet};
use gauges::gauge::Gauge;
use gauges::table::Table;
use gauges::tent::Tent;
use layers::step::Step;
use logs::log::Log;
use logs::setting::Setting;
use naive::gauges::Meaning;
use naive::laws::Sheet;
use naive::records::record_of;
use naive::survey::{Call, result_number};
use naive::terms::{count_of, ruled};
use records::record::{Record, check};
use std::alloc::{AllocError, Global};
use views::words::{IntoNaive, call_for};

// The name of the table and of the record; the tent has its own.
const LIST_NAME: u8 = 7;

// A stack of gauges over the sheet as a table and as a record, and a tent.
#[derive(Clone, Copy, PartialEq, Eq, Debug)]
pub enum Stack {
    Table,
    Record,
    Tent,
    // Flip of the table.
    Flip,
    // Coarse of the record.
    Coarse,
    // Higher of the table and the tent.
    Higher,
    // Sum of the tent and the record.
    Sum,
    // Flip of Coarse of Sum of the flipped record and Higher of the table and the tent.
    Deep,
}

// A sheet, a tent and a step, what is made of them, how the survey is opened, and the calls.
#[derive(Drop, Debug)]
pub struct Trial {
    pub sheet: Sheet,
    pub tent: naive::gauges::Tent,
    pub step: u32,
    pub stack: Stack,
    pub tolerance: u32,
    pub limit: u32,
    pub calls: Vec<Call>,
}

// What stacks are made of.
#[derive(Drop)]
struct Parts<'a> {
    heap: Global,
    trial: &'a Trial,
    // Every position up to a few beyond the last of the sheet and of the tent, and some far off.
    asked: Vec<u32>,
    table: Table<'a>,
    record: Record<'a>,
    tent: Tent,
    step: Step,
}

impl<'a> Parts<'a> {
    // What the table and the record mean.
    fn list_meaning(&self) -> Result<Meaning, AllocError> {
        self.trial.sheet.meaning(self.heap, LIST_NAME, &self.asked)
    }

    fn table(&self) -> Result<Meant<Table<'a>>, AllocError> {
        Ok(Meant {
            gauge: self.table,
            meaning: self.list_meaning()?,
        })
    }

    fn record(&self) -> Result<Meant<Record<'a>>, AllocError> {
        Ok(Meant {
            gauge: self.record,
            meaning: self.list_meaning()?,
        })
    }

    fn tent(&self) -> Result<Meant<Tent>, AllocError> {
        Ok(Meant {
            gauge: self.tent,
            meaning: self.trial.tent.meaning(self.heap, &self.asked)?,
        })
    }

    // Follows the trial on its stack. Each stack is a type of its own, so a match picks it: an arm says it once for both texts.
    fn follow(&self, clerk: &mut Clerk) -> Result<bool, AllocError> {
        let heap = self.heap;
        let trial = self.trial;
        match trial.stack {
            Stack::Table => trial.follow(clerk, self.table()?),
            Stack::Record => trial.follow(clerk, self.record()?),
            Stack::Tent => trial.follow(clerk, self.tent()?),
            Stack::Flip => trial.follow(clerk, self.table()?.flip(heap)?),
            Stack::Coarse => {
                trial.follow(clerk, self.record()?.coarse(heap, self.step, trial.step)?)
            }
            Stack::Higher => trial.follow(clerk, self.table()?.higher(heap, self.tent()?)?),
            Stack::Sum => trial.follow(clerk, self.tent()?.sum(heap, self.record()?)?),
            Stack::Deep => {
                let higher = self.table()?.higher(heap, self.tent()?)?;
                let sum = self.record()?.flip(heap)?.sum(heap, higher)?;
                let deep = sum.coarse(heap, self.step, trial.step)?.flip(heap)?;
                trial.follow(clerk, deep)
            }
        }
    }
}

// Whether the touches of a table are these, and a survey's notes say what the naive survey holds.
fn do_states_agree(log: &Log, other: &naive::survey::Survey) -> bool {
    let touches = log.touched().iter().map(|touch| touch.into_naive());
    log.notes.line.into_naive() == other.line
        && i64::from(log.notes.tolerance) == other.tolerance
        && u64::from(log.notes.limit) == other.limit
        && touches.eq(other.touches.iter().copied())
}

impl Trial {
    // Whether the gauge reads as it means, every call of the survey answers and leaves what the naive one does, and the ends agree.
    fn follow<G: Gauge + Drop>(
        &self,
        clerk: &mut Clerk,
        meant: Meant<G>,
    ) -> Result<bool, AllocError> {
        let Ok(setting) = Setting::new(self.tolerance, self.limit) else {
            return Ok(false);
        };
        if !meant.does_read_as_meant() {
            return Ok(false);
        }
        let Meant { gauge, meaning } = meant;
        let heap = clerk.heap;
        let tolerance = i64::from(self.tolerance);
        let limit = u64::from(self.limit);
        let mut survey = Survey::open(gauge, setting);
        let mut other = naive::survey::Survey::open(heap, meaning.line, tolerance, limit);
        for call in &self.calls {
            let answer = survey.call(call_for(*call)).into_naive();
            let expected = ruled(other.call(heap, &meaning, *call))?;
            clerk.note(result_number(expected));
            if answer != expected || !do_states_agree(survey.log(), &other) {
                return Ok(false);
            }
        }
        let end = End {
            log: survey.log(),
            other: &other,
        };
        end.agrees(clerk)
    }

    // Every position up to a few beyond the last of the sheet and of the tent, and some far off.
    fn asked(&self, heap: Global) -> Result<Vec<u32>, AllocError> {
        let count = count_of(&self.sheet.heights).max(self.tent.last);
        let mut positions: Vec<u32> = (0..count.saturating_add(3)).collect(heap)?;
        positions.extend_from_slice(&[65_535, 65_536, u32::MAX])?;
        Ok(positions)
    }

    // What stacks are made of, over heights and bytes that say the sheet; none where a test refuses one.
    fn parts<'a>(
        &'a self,
        heap: Global,
        heights: &'a [i32],
        bytes: &'a [u8],
    ) -> Result<Option<Parts<'a>>, AllocError> {
        let slope = figure_for(self.sheet.slope);
        let slack = figure_for(self.sheet.slack);
        let asked = self.asked(heap)?;
        let (Ok(tent), Ok(step)) = (tent_for(self.tent), Step::new(self.step)) else {
            return Ok(None);
        };
        let Ok(()) = Table::check(heights, slope, slack, LIST_NAME) else {
            return Ok(None);
        };
        let Ok(()) = check(bytes, LIST_NAME) else {
            return Ok(None);
        };
        Ok(Some(Parts {
            heap,
            trial: self,
            asked,
            table: Table::new(heights, slope, slack, LIST_NAME),
            record: Record::new(bytes, LIST_NAME),
            tent,
            step,
        }))
    }
}

impl Case for Trial {
    fn agrees(&self, clerk: &mut Clerk) -> Result<bool, AllocError> {
        let heap = clerk.heap;
        let heights = heights_for(heap, &self.sheet.heights)?;
        let bytes = record_of(heap, &self.sheet)?;
        match self.parts(heap, &heights, &bytes)? {
            Some(parts) => parts.follow(clerk),
            None => Ok(false),
        }
    }
}

// A tent for beside a sheet of a last position.
fn draw_tent(chance: &mut Chance, last: u16) -> naive::gauges::Tent {
    let farthest = if chance.once_in(2) { last } else { 4_000 };
    let steepest = if chance.once_in(2) { 40 } else { 40_000 };
    let own = chance.between(1, farthest);
    naive::gauges::Tent {
        last: u32::from(own),
        slope: i64::from(chance.between(1, steepest)),
        crown: u32::from(chance.between(0, own)),
        height: i64::from(chance.swing(20_000)),
        name: chance.byte().max(1),
    }
}

// Up to so many calls to a survey.
#[derive(Clone, Copy)]
pub struct Calls {
    pub shape: Shape,
    pub stack: Stack,
    pub calls: u16,
}

impl Subject for Calls {
    type Drawn = Trial;

    fn draw(&self, heap: Global, chance: &mut Chance, last: u16) -> Result<Trial, AllocError> {
        let sheet = draw_sheet(heap, chance, self.shape, last)?;
        let tolerance = draw_tolerance(chance, &sheet);
        let count = chance.between(0, self.calls);
        let calls = draw_calls(heap, chance, &sheet, count)?;
        Ok(Trial {
            sheet,
            tent: draw_tent(chance, last),
            step: u32::from(chance.between(1, 1_000)),
            stack: self.stack,
            tolerance,
            limit: draw_limit(chance),
            calls,
        })
    }
}

// A survey that is run until it is settled, the gauge answers a fault or 256 touches are made; at any tolerance where none is given.
#[derive(Clone, Copy)]
pub struct Runs {
    pub shape: Shape,
    pub stack: Stack,
    pub tolerance: Option<u32>,
}

impl Subject for Runs {
    type Drawn = Trial;

    fn draw(&self, heap: Global, chance: &mut Chance, last: u16) -> Result<Trial, AllocError> {
        let surveys = Calls {
            shape: self.shape,
            stack: self.stack,
            calls: 0,
        };
        let mut trial = surveys.draw(heap, chance, last)?;
        trial.limit = 256;
        trial.tolerance = self.tolerance.unwrap_or(trial.tolerance);
        trial
            .calls
            .extend_from_slice(&[Call::Run(300), Call::Ask, Call::Left])?;
        Ok(trial)
    }
}
