// What is told of a survey at its end: its stretches, the most touches of a search, and its certificate.
use crate::case::{Case, Clerk};
use certificates::writer::certify;
use logs::log::Log;
use naive::envelope::{Gap, most_touches};
use naive::survey::Survey;
use naive::terms::ruled;
use std::alloc::{AllocError, Global};
use stretches::spans::{Span, spans};
use views::words::IntoNaive;

// What a buffer holds before a certificate is written to it.
const FILLER: u8 = 0xA5;

// A survey at its end, by both texts.
#[derive(Clone, Copy)]
pub struct End<'a> {
    pub log: &'a Log,
    pub other: &'a Survey,
}

// The naive word for a stretch.
fn gap_of(span: &Span) -> Gap {
    Gap {
        from: u32::from(span.from),
        to: u32::from(span.to),
        summit: span.summit.into_naive(),
    }
}

impl End<'_> {
    // Whether the most touches of a search agree.
    fn do_bounds_agree(&self) -> bool {
        let most = stretches::most::most_touches(self.log);
        i64::from(most) == most_touches(self.other.line, self.other.tolerance)
    }

    // Whether the stretches are the gaps, one by one.
    fn do_stretches_agree(&self, heap: Global) -> Result<bool, AllocError> {
        let stretches = spans(heap, self.log)?;
        let gaps = self.other.on_line().gaps(heap)?;
        Ok(stretches.iter().map(gap_of).eq(gaps))
    }

    // Whether a certificate in a buffer of a length agrees, with the rest of the buffer.
    fn do_certificates_agree(&self, clerk: &mut Clerk, length: usize) -> Result<bool, AllocError> {
        let heap = clerk.heap;
        let mut buffer = Vec::from_elem(heap, FILLER, length)?;
        let mut expected = Vec::from_elem(heap, FILLER, length)?;
        let answer = certify(self.log, &mut buffer).into_naive();
        let written = naive_texts::certificate::certify(heap, self.other, &mut expected);
        let written = ruled(written)?;
        clerk.note_verdict(&written);
        Ok(answer == written && buffer == expected)
    }

    // The certificate in buffers that are empty, one byte too short, of the right length and longer.
    fn do_rooms_agree(&self, clerk: &mut Clerk) -> Result<bool, AllocError> {
        let bits = 98usize.wrapping_add(28usize.wrapping_mul(self.other.touches.len()));
        let exact = bits.div_ceil(8);
        // A loop: `all` has no place for want of memory.
        for length in [0, exact.wrapping_sub(1), exact, exact.wrapping_add(5)] {
            if !self.do_certificates_agree(clerk, length)? {
                return Ok(false);
            }
        }
        Ok(true)
    }
}

impl Case for End<'_> {
    fn agrees(&self, clerk: &mut Clerk) -> Result<bool, AllocError> {
        Ok(
            self.do_bounds_agree()
                && self.do_stretches_agree(clerk.heap)?
                && self.do_rooms_agree(clerk)?,
        )
    }
}
