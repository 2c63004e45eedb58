// The lines of a report.
ghost use Rattle.std.specs.Prelude.{◌≡◌, ◌++◌, string_bytes, OnOk};
ghost use Rattle.accounts.specs.Lines.{and_lines, gauge_line, spot_line, told_lines, reading_line, stack_lines};

use gauges::gauge::Gauge;
use sheets::summary::{Spot, summarize};
use std::alloc::AllocError;
use std::fmt::Write;

// The line of the lowest or the highest height.
fn put_spot(out: &mut String, which: &str, spot: Option<Spot>) -> Result<(), AllocError>
    ensures { OnOk result (string_bytes out.new ≡ string_bytes out.old ++ spot_line which.now spot) }
{
    match spot {
        Some(Spot { position, height }) => {
            writeln!(out, "{which} height {height} at position {position}")
        }
        None => writeln!(out, "{which} height none"),
    }
}

// Last position, slope and slack of any gauge.
fn put_line<G: Gauge>(out: &mut String, gauge: &G) -> Result<(), AllocError>
    ensures { OnOk result (string_bytes out.new ≡ string_bytes out.old ++ gauge_line (G.Gauge.meaning gauge.now)) }
{
    let last = gauge.last();
    let slope = gauge.slope();
    let slack = gauge.slack();
    writeln!(out, "last position {last}, slope {slope}, slack {slack}")
}

// The figures, the number of readable positions, the lowest and the highest height of any gauge.
pub(crate) fn put_summary<G: Gauge>(out: &mut String, gauge: &G) -> Result<(), AllocError>
    ensures { OnOk result (string_bytes out.new ≡ and_lines (string_bytes out.old) (told_lines (G.Gauge.meaning gauge.now))) }
{
    put_line(out, gauge)?;
    let summary = summarize(gauge);
    let readable = summary.readable;
    let positions = gauge.last() + 1;
    writeln!(out, "readable positions {readable} of {positions}")?;
    put_spot(out, "lowest", summary.lowest)?;
    put_spot(out, "highest", summary.highest)
}

// The reading of one position.
fn put_reading<G: Gauge>(out: &mut String, gauge: &G, position: u32) -> Result<(), AllocError>
    ensures { OnOk result (string_bytes out.new ≡ string_bytes out.old ++ reading_line (G.Gauge.meaning gauge.now) position) }
{
    match gauge.read(position) {
        Ok(height) => writeln!(out, "position {position}: height {height}"),
        Err(fault) => writeln!(out, "position {position}: {fault}"),
    }
}

// The figures of any gauge, and its readings at the first, the middle, the last position and one beyond.
pub(crate) fn put_gauge<G: Gauge>(out: &mut String, gauge: &G) -> Result<(), AllocError>
    ensures { OnOk result (string_bytes out.new ≡ and_lines (string_bytes out.old) (stack_lines (G.Gauge.meaning gauge.now))) }
{
    put_line(out, gauge)?;
    let last = gauge.last();
    put_reading(out, gauge, 0)?;
    put_reading(out, gauge, last / 2)?;
    put_reading(out, gauge, last)?;
    put_reading(out, gauge, last + 1)
}
