ghost use Rattle.std.specs.Prelude.{◌≡◌, ℕ, ◌+◌, ◌*◌, ◌/◌, ◌<◌, ◌≤◌, ◌++◌, length, drop, IfSome, IfOk, Ok, OnOk};
ghost use Rattle.std.specs.List.{AllByRecursion};
ghost use Rattle.terms.specs.Limits.{last_max};
ghost use Rattle.caps.specs.Touches.{WithinLimits};
ghost use Rattle.caps.specs.Outlooks.{outlook};
ghost use Rattle.certificates.specs.Layout.{certificate_fields, certificate_with, certificate_size};
ghost use Rattle.certificates.specs.Theorem.{CertificateBounds};
ghost use Rattle.logs.specs.Logs.{state_of};
ghost use Rattle.certificates.specs.Verdict.{settled_or, with_room, certified, certificate_verdict, certificate_leaves, verdict_on, left_by_survey};
ghost use Rattle.fields.specs.Bits.{Stored, complement_of};
ghost use Rattle.certificates.specs.Steps.{HeadWritten, TouchWritten, TouchesWritten};

use crate::layout::{
    CEILING, COUNT, FLOOR, LAST, SLACK, SLOPE, TOLERANCE, TOUCH_WIDTH, TOUCHES_AT, height_at,
    position_at,
};
use caps::{Line, Outlook, Touch};
use envelope::looks::is_settled;
use envelope::touched::Touched;
use logs::log::Log;
use terms::refusal::Refusal;

// The bytes of a certificate with that many touches.
fn size(count: usize) -> usize
    requires { count ≤ 256 }
    ensures { result ≡ certificate_size count }
{
    (TOUCHES_AT + TOUCH_WIDTH * count).div_ceil(8)
}

// What the touches tell; their floor lies on the line.
fn told(touched: &Touched<'_>) -> Option<Outlook>
    ensures is { result ≡ outlook touched.now.line touched.now.touches.now }
    ensures within { IfSome result (λ o. o.floor.position ≤ touched.now.line.last) }
    ensures bounds { CertificateBounds }
{
    touched.look()
}

// What the touches of a settled survey tell.
fn settle(touched: &Touched<'_>, tolerance: u16) -> Result<Outlook, Refusal>
    ensures is { result ≡ settled_or tolerance (outlook touched.now.line touched.now.touches.now) }
    ensures within { IfOk result (λ o. o.floor.position ≤ touched.now.line.last) }
    ensures bounds { CertificateBounds }
{
    let seen = told(touched).ok_or(Refusal::NothingTouched)?;
    if is_settled(Some(seen), tolerance) {
        Ok(seen)
    } else {
        Err(Refusal::NotSettled)
    }
}

// What is told, where that many bytes are there.
fn with_room(seen: Outlook, size: usize, room: usize) -> Result<Outlook, Refusal>
    ensures is { result ≡ with_room size room (Ok seen) }
    ensures same { IfOk result (λ o. o ≡ seen) }
    ensures enough { OnOk result (size ≤ room) }
{
    if room < size {
        Err(Refusal::BufferTooShort)
    } else {
        Ok(seen)
    }
}

// The same, where the buffer has room for the certificate.
fn settled_with_room(touched: &Touched<'_>, tolerance: u16, room: usize) -> Result<Outlook, Refusal>
    ensures is { result ≡ certified touched.now.line tolerance touched.now.touches.now room }
    ensures within { IfOk result (λ o. o.floor.position ≤ touched.now.line.last) }
    ensures enough { OnOk result (certificate_size (length touched.now.touches.now) ≤ room) }
    ensures bounds { CertificateBounds }
{
    let seen = settle(touched, tolerance)?;
    with_room(seen, size(touched.touches.len()), room)
}

// Writes the ceiling.
fn put_ceiling(buf: &mut [u8], seen: Outlook)
    requires { 98 ≤ 8 * length buf.old }
    ensures { Stored buf.old buf.new 81 17 (complement_of 17 seen.ceiling) }
{
    CEILING.put_signed(buf, seen.ceiling);
}

// Writes the fields before the touches.
fn write_head(buf: &mut [u8], line: Line, tolerance: u16, count: usize, seen: Outlook)
    requires line { WithinLimits line }
    requires fits { (count ≤ 256) × (seen.floor.position ≤ line.last) }
    requires room { 98 ≤ 8 * length buf.old }
    ensures { HeadWritten line tolerance count seen buf.old buf.new }
{
    LAST.put(buf, u32::from(line.last));
    SLOPE.put(buf, u32::from(line.slope));
    SLACK.put(buf, u32::from(line.slack));
    TOLERANCE.put(buf, u32::from(tolerance));
    COUNT.put(buf, count as u32);
    FLOOR.put(buf, u32::from(seen.floor.position));
    put_ceiling(buf, seen);
}

// Writes the touch at its place among the touches.
fn write_touch(buf: &mut [u8], place: usize, touch: Touch)
    requires fits { (touch.position ≤ last_max) × (place < 256) }
    requires room { 98 + 28 * (place + 1) ≤ 8 * length buf.old }
    ensures { TouchWritten place touch buf.old buf.new }
{
    position_at(place).put(buf, u32::from(touch.position));
    height_at(place).put_signed(buf, i32::from(touch.height));
}

// Writes the touches after the head.
fn write_touches(buf: &mut [u8], touches: &[Touch])
    requires fits { (AllByRecursion (λ t. t.position ≤ last_max) touches.now) × (length touches.now ≤ 256) }
    requires room { 98 + 28 * length touches.now ≤ 8 * length buf.old }
    ensures { TouchesWritten (length touches.now) touches.now buf.old buf.new }
{
    for (place, touch) in touches.iter().enumerate() {
        write_touch(buf, place, *touch);
    }
}

// Writes the certificate to the front of a buffer that has room for it.
fn write_fields(buf: &mut [u8], touched: &Touched<'_>, tolerance: u16, seen: Outlook)
    requires floor { seen.floor.position ≤ touched.now.line.last }
    requires room { certificate_size (length touched.now.touches.now) ≤ length buf.old }
    ensures { buf.new ≡ certificate_with touched.now.line tolerance touched.now.touches.now seen ++ drop (certificate_size (length touched.now.touches.now)) buf.old }
{
    write_head(buf, touched.line, tolerance, touched.touches.len(), seen);
    write_touches(buf, touched.touches);
}

// Writes the certificate of these touches, unless it is refused.
fn write(buf: &mut [u8], touched: &Touched<'_>, tolerance: u16) -> Result<usize, Refusal>
    ensures answer { result ≡ certificate_verdict touched.now.line tolerance touched.now.touches.now (length buf.old) }
    ensures bytes { buf.new ≡ certificate_leaves touched.now.line tolerance touched.now.touches.now buf.old }
    ensures bounds { CertificateBounds }
{
    let seen = settled_with_room(touched, tolerance, buf.len())?;
    write_fields(buf, touched, tolerance, seen);
    Ok(size(touched.touches.len()))
}

// Writes the certificate of a settled survey to the front of `buf` and answers how many bytes it has; a refusal leaves `buf` as it was.
pub fn certify(log: &Log, buf: &mut [u8]) -> Result<usize, Refusal>
    ensures answer { result ≡ verdict_on (state_of log.now) (length buf.old) }
    ensures bytes { buf.new ≡ left_by_survey (state_of log.now) buf.old }
    ensures bounds { CertificateBounds }
{
    write(buf, &log.view(), log.notes.tolerance)
}
