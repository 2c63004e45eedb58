ghost use Rattle.std.specs.Prelude.{◌≡◌, ◌<◌, ◌++◌, length, IfOk, OnOk};
ghost use Rattle.logs.specs.Logs.{state_of};
ghost use Rattle.stretches.specs.Spans.{spans_from, spans, span_with, end_before, strip_end};
ghost use Rattle.stretches.specs.Laws.{LawsOfSpans};

use caps::Summit;
use envelope::touched::Touched;
use logs::log::Log;
use std::alloc::{AllocError, Global};

// A gap from its first to its last position, and how high it can stand: its largest cap, at the lowest place.
#[derive(Clone, Copy, PartialEq, Eq, Debug)]
pub struct Span {
    pub from: u16,
    pub to: u16,
    pub summit: Summit,
}

// Adds the gap that has this summit.
fn push_span(
    spans: &mut Vec<Span>,
    from: u16,
    to: u16,
    summit: Option<Summit>,
) -> Result<(), AllocError>
    ensures { OnOk result (spans.new.items ≡ spans.old.items ++ span_with from to summit) }
{
    if let Some(summit) = summit {
        spans.push(Span { from, to, summit })?;
    }
    Ok(())
}

// The last position of the gap from `from` on that the touch at that position ends; none where no position is between.
fn end_before(from: u16, position: u16) -> Option<u16>
    ensures { result ≡ end_before from position }
{
    // No `then`: its closure would subtract without knowing that the position is not 0.
    if from < position {
        Some(position - 1)
    } else {
        None
    }
}

// The last position of the strip from `from` on; none where the line ends before it.
fn strip_end(from: u16, last: u16) -> Option<u16>
    ensures { result ≡ strip_end from last }
{
    (from <= last).then_some(last)
}

// The gaps beside some touches. The walk tells their summits, the touches their ends. A loop: a touch takes a summit from the walk only where it ends a gap.
fn spans_beside(heap: Global, seen: &Touched<'_>) -> Result<Vec<Span>, AllocError>
    requires { 0 < length seen.now.touches.now }
    ensures { IfOk result (λ v. v.items ≡ spans_from seen.now.line seen.now.touches.now 0 seen.now.touches.now) }
{
    let falls = seen.falls();
    let mut gaps = seen.gaps(&falls);
    let mut spans = Vec::new(heap);
    let mut from = 0;
    for touch in seen.touches {
        if let Some(to) = end_before(from, touch.position) {
            push_span(&mut spans, from, to, gaps.next())?;
        }
        from = touch.position + 1;
    }
    if let Some(to) = strip_end(from, seen.line.last) {
        push_span(&mut spans, from, to, gaps.next())?;
    }
    Ok(spans)
}

// The gaps beside these touches; none before the first touch.
fn spans_of(heap: Global, seen: &Touched<'_>) -> Result<Vec<Span>, AllocError>
    ensures is { IfOk result (λ v. v.items ≡ spans seen.now.line seen.now.touches.now) }
    ensures laws { LawsOfSpans }
{
    if seen.touches.is_empty() {
        return Ok(Vec::new(heap));
    }
    spans_beside(heap, seen)
}

// Each gap in rising order, with its ends, its largest cap and that cap's lowest place. None before the first touch: there is no cap then.
pub fn spans(heap: Global, log: &Log) -> Result<Vec<Span>, AllocError>
    ensures is { IfOk result (λ v. v.items ≡ spans (state_of log.now).line (state_of log.now).touches) }
    ensures laws { LawsOfSpans }
{
    spans_of(heap, &log.view())
}
