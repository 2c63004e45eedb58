ghost use Rattle.records.specs.Laws.{record_meaning, record_lawful};

use crate::layout::{SLACK, SLOPE};
use crate::packed::Packed;
use crate::record::{Record, last_of};
use gauges::gauge::Gauge;
use heights::reading::reading;
use terms::fault::Fault;

impl<'a> Gauge for Record<'a> {
    ghost meaning = { λ r. record_meaning r.bytes.now r.name };

    ghost lawful = { λ r. record_lawful r.bytes.now r.name r.passes };

    #[tactic(auto, using(crate::proofs::Heights::length_heights))]
    fn last(&self) -> u32 {
        last_of(self.bytes)
    }

    fn slope(&self) -> u32 {
        SLOPE.read(self.bytes)
    }

    fn slack(&self) -> u32 {
        SLACK.read(self.bytes)
    }

    fn read(&self, position: u32) -> Result<i32, Fault> {
        reading(&Packed::new(self.bytes), self.name, position)
    }
}
