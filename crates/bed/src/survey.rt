use gauges::gauge::Gauge;
use logs::log::Log;

pub mod calls;
pub mod opening;
pub mod runs;
pub mod touches;

// A survey of the line of a gauge.
#[derive(Drop)]
pub struct Survey<G: Gauge> {
    gauge: G,
    log: Log,
}
