// The lines of the insurer's form.
ghost use Rattle.std.specs.Prelude.{◌≡◌, ◌++◌, string_bytes, OnOk};
ghost use Rattle.logs.specs.Logs.{state_of};
ghost use Rattle.policies.specs.Lines.{touch_text, which_text, ends_text, summit_text, span_text, spans_text, bounds_text, tally_text, known_text};

use crate::units::{Height, Place};
use caps::{Outlook, Summit, Touch};
use logs::log::Log;
use std::alloc::{AllocError, Global};
use std::fmt::Write;
use stretches::most::most_touches;
use stretches::spans::{Span, spans};

// A touch as it is made, and the ceiling after it.
pub(crate) fn put_touch(
    out: &mut String,
    number: u16,
    touch: Touch,
    ceiling: i32,
) -> Result<(), AllocError>
    ensures { OnOk result (string_bytes out.new ≡ string_bytes out.old ++ touch_text number touch ceiling) }
{
    let place = Place(touch.position);
    let height = Height(i32::from(touch.height));
    let ceiling = Height(ceiling);
    writeln!(
        out,
        "touch {number} at {place}: height {height}, ceiling {ceiling}"
    )
}

// What kind of gap ends there: one that ends with the line is the strip past the last touch.
fn kind(last: u16, to: u16) -> &'static str
    ensures { result.now ≡ which_text last to }
{
    if to == last {
        "past the last touch"
    } else {
        "between touches"
    }
}

// The kind and the ends of a gap.
fn put_ends(out: &mut String, which: &str, span: Span) -> Result<(), AllocError>
    ensures { OnOk result (string_bytes out.new ≡ string_bytes out.old ++ ends_text which.now span) }
{
    let from = Place(span.from);
    let to = Place(span.to);
    write!(out, "{which}, {from} to {to}")
}

// Its largest cap, and where it stands first.
fn put_summit(out: &mut String, summit: Summit) -> Result<(), AllocError>
    ensures { OnOk result (string_bytes out.new ≡ string_bytes out.old ++ summit_text summit) }
{
    let cap = Height(summit.cap);
    let place = Place(summit.place);
    writeln!(out, ": at most {cap}, first at {place}")
}

// How high the glass can stand in a gap.
fn put_span(out: &mut String, last: u16, span: Span) -> Result<(), AllocError>
    ensures { OnOk result (string_bytes out.new ≡ string_bytes out.old ++ span_text last span) }
{
    put_ends(out, kind(last, span.to), span)?;
    put_summit(out, span.summit)
}

// The same of each gap.
fn put_spans(out: &mut String, last: u16, spans: &[Span]) -> Result<(), AllocError>
    ensures { OnOk result (string_bytes out.new ≡ string_bytes out.old ++ spans_text last spans.now) }
{
    for span in spans {
        put_span(out, last, *span)?;
    }
    Ok(())
}

// Floor and ceiling.
fn put_bounds(out: &mut String, seen: Option<Outlook>) -> Result<(), AllocError>
    ensures { OnOk result (string_bytes out.new ≡ string_bytes out.old ++ bounds_text seen) }
{
    match seen {
        Some(seen) => {
            let floor = Height(i32::from(seen.floor.height));
            let place = Place(seen.floor.position);
            let ceiling = Height(seen.ceiling);
            writeln!(out, "floor {floor} at {place}, ceiling {ceiling}")
        }
        None => writeln!(out, "nothing is touched"),
    }
}

// The touches beside the most that a search can make.
fn put_tally(out: &mut String, touches: u16, most: u32) -> Result<(), AllocError>
    ensures { OnOk result (string_bytes out.new ≡ string_bytes out.old ++ tally_text touches most) }
{
    writeln!(out, "touches {touches}, by the rules at most {most}")
}

// What is known: each gap in rising order, floor and ceiling, and the touches.
pub(crate) fn put_known(heap: Global, out: &mut String, log: &Log) -> anyhow::Result<()>
    ensures { OnOk result (string_bytes out.new ≡ string_bytes out.old ++ known_text (state_of log.now)) }
{
    let gaps = spans(heap, log)?;
    put_spans(out, log.notes.line.last, gaps.as_slice())?;
    put_bounds(out, log.look())?;
    put_tally(out, log.number_of_touches(), most_touches(log))?;
    Ok(())
}
