ghost use Rattle.heights.specs.Lists.{list_meaning};
ghost use Rattle.heights.proofs.Laws.{table_lawful};

use crate::gauge::Gauge;
use crate::table::Table;
use heights::list::Lent;
use heights::reading::reading;
use terms::fault::Fault;

impl<'a> Gauge for Table<'a> {
    ghost meaning = { λ t. list_meaning t.slope t.slack t.heights.now t.name };

    ghost lawful = { λ t. table_lawful t.slope t.slack t.heights.now t.name t.passes };

    fn last(&self) -> u32 {
        (self.heights.len() - 1) as u32
    }

    fn slope(&self) -> u32 {
        self.slope
    }

    fn slack(&self) -> u32 {
        self.slack
    }

    fn read(&self, position: u32) -> Result<i32, Fault> {
        let lent = Lent {
            heights: self.heights,
        };
        reading(&lent, self.name, position)
    }
}
