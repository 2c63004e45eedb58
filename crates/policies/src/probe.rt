// Touching by high until it refuses.
ghost use Rattle.std.specs.Prelude.{◌≡◌, ◌++◌, IfOk, Err, string_bytes, OnOk};
ghost use Rattle.surveys.specs.Calls.{high};
ghost use Rattle.logs.specs.Logs.{state_of};
ghost use Rattle.policies.specs.Probes.{room, after_highs, seen_text, made_text, touches_told};

use crate::lines::put_touch;
use crate::paper::Paper;
use bed::survey::Survey;
use caps::{Outlook, Touch};
use gauges::gauge::Gauge;
use logs::log::Log;
use std::alloc::{AllocError, Global};
use terms::refusal::Refusal;

// The line of the touch of that number.
fn put_seen(
    out: &mut String,
    number: u16,
    touch: Touch,
    seen: Option<Outlook>,
) -> Result<(), AllocError>
    ensures { OnOk result (string_bytes out.new ≡ string_bytes out.old ++ seen_text number touch seen) }
{
    match seen {
        Some(outlook) => put_touch(out, number, touch, outlook.ceiling),
        None => Ok(()),
    }
}

// Tells the touch that was made last.
fn tell_touch<P: Paper>(heap: Global, paper: &mut P, log: &Log, touch: Touch) -> anyhow::Result<()>
    ensures { OnOk result (P.Paper.said paper.new ≡ P.Paper.said paper.old ++ made_text (state_of log.now) touch) }
{
    let mut line = String::new(heap);
    put_seen(&mut line, log.number_of_touches(), touch, log.look())?;
    paper.print(line.as_str())
}

// Touches by high until it refuses, tells each touch as it is made, and answers the refusal.
pub(crate) fn probe<G: Gauge, P: Paper>(
    heap: Global,
    survey: &mut Survey<G>,
    paper: &mut P,
) -> anyhow::Result<Refusal>
    ensures gauge { survey.new.gauge ≡ survey.old.gauge }
    ensures state { OnOk result (state_of survey.new.log ≡ after_highs (room (state_of survey.old.log)) (G.Gauge.meaning survey.old.gauge).reading (state_of survey.old.log)) }
    ensures refusal { IfOk result (λ e. (high (G.Gauge.meaning survey.old.gauge).reading (state_of survey.new.log)).answer ≡ Err e) }
    ensures told { OnOk result (P.Paper.said paper.new ≡ P.Paper.said paper.old ++ touches_told (room (state_of survey.old.log)) (G.Gauge.meaning survey.old.gauge).reading (state_of survey.old.log)) }
{
    loop {
        match survey.high() {
            Ok(touch) => tell_touch(heap, paper, survey.log(), touch)?,
            Err(refusal) => return Ok(refusal),
        }
    }
}
