// What is told of a stack.
ghost use Rattle.std.specs.Prelude.{◌≡◌, Ok, Err, string_bytes, MatchResult};
ghost use Rattle.gauges.specs.Made.{TentOf};
ghost use Rattle.accounts.specs.Failures.{Puts};
ghost use Rattle.accounts.specs.Reports.{beam_name, coarse_lines, stepped, beam_verdict, layered};

use crate::lines::put_gauge;
use crate::stack::{Beam, Layers};
use gauges::gauge::Gauge;
use gauges::tent::Tent;
use layers::coarse::Coarse;
use layers::step::Step;
use layers::sum::Sum;
use sheets::failure::Failure;
use std::fmt::Write;
use terms::refusal::Refusal;

// The gauge's name of the beam; the record has 1.
const BEAM_NAME: u8 = 2;

// The gauge rounded down to a step.
fn put_coarse<G: Gauge + Drop>(out: &mut String, gauge: G, size: u32) -> Result<(), Failure>
    ensures { Puts (string_bytes out.old) (coarse_lines (G.Gauge.meaning gauge) size) result (string_bytes out.new) }
{
    let step = Step::new(size)?;
    writeln!(out, "rounded down to steps of {size}:")?;
    put_gauge(out, &Coarse::over(gauge, step))?;
    Ok(())
}

// The gauge under the step, where there is one.
fn put_stepped<G: Gauge + Drop>(
    out: &mut String,
    gauge: G,
    step: Option<u32>,
) -> Result<(), Failure>
    ensures { Puts (string_bytes out.old) (stepped (G.Gauge.meaning gauge) step) result (string_bytes out.new) }
{
    match step {
        Some(size) => put_coarse(out, gauge, size),
        None => Ok(put_gauge(out, &gauge)?),
    }
}

// The beam over as many positions as the gauge below it has.
fn beam_over<G: Gauge>(gauge: &G, beam: Beam) -> Result<Tent, Refusal>
    ensures { MatchResult result (λ t. (beam_verdict (G.Gauge.meaning gauge.now) beam ≡ Ok tt) × TentOf (G.Gauge.meaning gauge.now).last beam.slope beam.crown beam.height beam_name t) (λ e. beam_verdict (G.Gauge.meaning gauge.now) beam ≡ Err e) }
{
    Tent::new(gauge.last(), beam.slope, beam.crown, beam.height, BEAM_NAME)
}

// The gauge under the layers that are asked for, from the lowest on.
pub fn put_stack<G: Gauge + Drop>(out: &mut String, gauge: G, layers: Layers) -> Result<(), Failure>
    ensures { Puts (string_bytes out.old) (layered (G.Gauge.meaning gauge) layers.beam layers.step) result (string_bytes out.new) }
{
    match (layers.beam, layers.step) {
        (None, None) => Ok(()),
        (None, Some(size)) => put_coarse(out, gauge, size),
        (Some(beam), step) => {
            let tent = beam_over(&gauge, beam)?;
            writeln!(out, "with the bow of the beam added:")?;
            put_stepped(out, Sum::of(gauge, tent), step)
        }
    }
}
