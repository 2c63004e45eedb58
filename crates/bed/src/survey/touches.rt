// A touch, and the search for its place.
ghost use Rattle.std.specs.Prelude.{◌≡◌, false};
ghost use Rattle.surveys.specs.States.{full};
ghost use Rattle.surveys.specs.Calls.{touch_at};
ghost use Rattle.logs.specs.Logs.{state_of, Free, FreeAim};
ghost use Rattle.bed.specs.Seeking.{touch_result, place_at, sought, FreeNext};

use caps::Touch;
use gauges::gauge::Gauge;
use logs::log::Log;
use surveys::answers::Stop;
use terms::fault::Fault;
use terms::refusal::Refusal;

// Reads the gauge once, and puts the touch in at its place.
pub(crate) fn touch<G: Gauge>(gauge: &G, log: &mut Log, position: u16) -> Result<Touch, Fault>
    requires room { full (state_of log.old) ≡ false }
    requires free { Free (state_of log.old) position }
    ensures answer { result ≡ touch_result position ((G.Gauge.meaning gauge.now).reading position) }
    ensures state { state_of log.new ≡ (touch_at (G.Gauge.meaning gauge.now).reading (state_of log.old) position).after }
{
    let height = gauge.read(u32::from(position))?;
    let touch = Touch {
        position,
        height: height as i16,
    };
    log.insert(touch);
    Ok(touch)
}

// Where a touch is made that is aimed there: nowhere if the survey is settled, or its touches equal the limit.
pub(crate) fn place(log: &Log, aim: Option<u16>) -> Result<u16, Stop>
    requires { FreeAim (state_of log.now) aim }
    ensures is { result ≡ place_at (state_of log.now) aim }
    ensures free { FreeNext (state_of log.now) result }
{
    let position = aim.ok_or(Stop::Settled)?;
    if log.is_full() {
        return Err(Stop::LimitReached);
    }
    Ok(position)
}

// Touches where a search aims. The gauge is lent beside the log, so that it stays as it was is known by its type.
pub(crate) fn seek<G: Gauge>(gauge: &G, log: &mut Log, aim: Option<u16>) -> Result<Touch, Refusal>
    requires { FreeAim (state_of log.old) aim }
    ensures answer { result ≡ (sought (G.Gauge.meaning gauge.now).reading (state_of log.old) aim).answer }
    ensures state { state_of log.new ≡ (sought (G.Gauge.meaning gauge.now).reading (state_of log.old) aim).after }
{
    let position = place(log, aim)?;
    Ok(touch(gauge, log, position)?)
}
