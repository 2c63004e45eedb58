// The certificate of a survey.
use naive::bits::{bytes_of, push_number, put_front};
use naive::survey::Survey;
use naive::terms::{Denial, Failure, Touch, count_of};
use std::alloc::{AllocError, Global};

// Adds last, slope, slack, tolerance, touch count, floor position and ceiling.
fn push_head(
    bits: &mut Vec<bool>,
    survey: &Survey,
    floor: Touch,
    ceiling: i64,
) -> Result<(), AllocError> {
    push_number(bits, i64::from(survey.line.last), 12)?;
    push_number(bits, survey.line.slope, 16)?;
    push_number(bits, survey.line.slack, 16)?;
    push_number(bits, survey.tolerance, 16)?;
    push_number(bits, i64::from(count_of(&survey.touches)), 9)?;
    push_number(bits, i64::from(floor.position), 12)?;
    push_number(bits, ceiling, 17)
}

// The bytes of the certificate of a survey that has this floor and this ceiling.
fn bytes(heap: Global, survey: &Survey, floor: Touch, ceiling: i64) -> Result<Vec<u8>, AllocError> {
    let mut bits = Vec::new(heap);
    push_head(&mut bits, survey, floor, ceiling)?;
    for touch in &survey.touches {
        push_number(&mut bits, i64::from(touch.position), 12)?;
        push_number(&mut bits, touch.height, 16)?;
    }
    bytes_of(heap, &bits)
}

// Writes the certificate to the front of a buffer and answers its length: 19, 20, 21.
pub fn certify(heap: Global, survey: &Survey, buffer: &mut [u8]) -> Result<u64, Failure> {
    let report = survey.ask()?;
    if !report.settled {
        return Err(Failure::from(Denial::bare(20)));
    }
    let certificate = bytes(heap, survey, report.floor, report.ceiling)?;
    Ok(put_front(buffer, &certificate)?)
}
