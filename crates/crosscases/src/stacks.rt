// Gauges with what they mean, and the stacks of them.
use gauges::gauge::Gauge;
use layers::coarse::Coarse;
use layers::flip::Flip;
use layers::higher::Higher;
use layers::step::Step;
use layers::sum::Sum;
use naive::gauges::Meaning;
use std::alloc::{AllocError, Global};
use views::words::{IntoNaive, line_of};

// A gauge, and what it means.
#[derive(Drop)]
pub struct Meant<G> {
    pub gauge: G,
    pub meaning: Meaning,
}

impl<G: Gauge + Drop> Meant<G> {
    pub fn flip(self, heap: Global) -> Result<Meant<Flip<G>>, AllocError> {
        let meaning = self.meaning.flip(heap)?;
        Ok(Meant {
            gauge: Flip::over(self.gauge),
            meaning,
        })
    }

    // The size is the step's.
    pub fn coarse(
        self,
        heap: Global,
        step: Step,
        size: u32,
    ) -> Result<Meant<Coarse<G>>, AllocError> {
        let meaning = self.meaning.coarse(heap, i64::from(size))?;
        Ok(Meant {
            gauge: Coarse::over(self.gauge, step),
            meaning,
        })
    }

    pub fn higher<H: Gauge + Drop>(
        self,
        heap: Global,
        second: Meant<H>,
    ) -> Result<Meant<Higher<G, H>>, AllocError> {
        let meaning = self.meaning.higher(heap, &second.meaning)?;
        Ok(Meant {
            gauge: Higher::of(self.gauge, second.gauge),
            meaning,
        })
    }

    pub fn sum<H: Gauge + Drop>(
        self,
        heap: Global,
        second: Meant<H>,
    ) -> Result<Meant<Sum<G, H>>, AllocError> {
        let meaning = self.meaning.sum(heap, &second.meaning)?;
        Ok(Meant {
            gauge: Sum::of(self.gauge, second.gauge),
            meaning,
        })
    }

    // Whether the gauge tells the line and the readings that it means.
    pub fn does_read_as_meant(&self) -> bool {
        let Meant { gauge, meaning } = self;
        let mut spots = meaning.spots.iter();
        line_of(gauge) == meaning.line
            && spots.all(|spot| gauge.read(spot.position).into_naive() == spot.reading)
    }
}
