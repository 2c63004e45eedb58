// Worked examples whose figures are known: both texts give them.
use crate::case::{Case, Clerk};
use bed::survey::Survey;
use caps::{Line, Touch};
use certificates::writer::certify;
use gauges::table::Table;
use logs::log::Log;
use logs::setting::Setting;
use naive::laws::Sheet;
use naive::survey::Call;
use naive::terms::{Denial, Told, ruled};
use naive_texts::transcript::transcript;
use records::record::check;
use std::alloc::{AllocError, Global};
use transcripts::print::print;
use views::looks::Look;
use views::words::IntoNaive;

// A worked example. An enum and no list of closures: the first that disagrees is printed by its name.
#[derive(Clone, Copy, Debug)]
pub enum Example {
    NeighboursKeepTheLaw,
    SmallRecords,
    CapsByAllTouches,
    CertificateOf30,
    WorkedTalk,
}

pub const EXAMPLES: [Example; 5] = [
    Example::NeighboursKeepTheLaw,
    Example::SmallRecords,
    Example::CapsByAllTouches,
    Example::CertificateOf30,
    Example::WorkedTalk,
];

// Last 10, slope 5, slack 0.
const HEIGHTS: [i32; 11] = [0, 4, 8, 10, 9, 5, 6, 9, 7, 3, 0];

// Its record.
const RECORD: [u8; 28] = [
    0x00, 0xA0, 0x00, 0x50, 0x00, 0x00, 0x00, 0x00, 0x00, 0x40, 0x00, 0x80, 0x00, 0xA0, 0x00, 0x90,
    0x00, 0x50, 0x00, 0x60, 0x00, 0x90, 0x00, 0x70, 0x00, 0x30, 0x00, 0x00,
];

// Its certificate, settled at tolerance 3 with 5 touches.
const CERTIFICATE: [u8; 30] = [
    0x00, 0xA0, 0x00, 0x50, 0x00, 0x00, 0x00, 0x30, 0x28, 0x01, 0x80, 0x02, 0x80, 0x00, 0x00, 0x00,
    0x00, 0xC0, 0x02, 0x80, 0x14, 0x00, 0x14, 0x01, 0xC0, 0x02, 0x40, 0x28, 0x00, 0x00,
];

// A naive sheet.
fn sheet(heap: Global, slope: i64, slack: i64, heights: &[i64]) -> Result<Sheet, AllocError> {
    Ok(Sheet {
        slope,
        slack,
        heights: Vec::from_slice(heap, heights)?,
    })
}

// 8 at two positions.
fn broken(later: u32, earlier: u32) -> Result<(), Denial> {
    Err(Denial {
        number: 8,
        told: Told::Pair { later, earlier },
    })
}

// Slope 1, slack 4, heights 0, 5, 10: the first and the third break the law, though neighbours keep it.
fn neighbours_keep_the_law(heap: Global) -> Result<bool, AllocError> {
    let verdict = sheet(heap, 1, 4, &[0, 5, 10])?.check_as_table(1);
    Ok(verdict == broken(2, 0) && Table::check(&[0, 5, 10], 1, 4, 1).into_naive() == verdict)
}

// A record that both texts give the same verdict.
fn is_judged(heap: Global, bytes: &[u8], verdict: Result<(), Denial>) -> Result<bool, AllocError> {
    let expected = ruled(naive::records::check(heap, bytes, 1))?;
    Ok(expected == verdict && check(bytes, 1).into_naive() == verdict)
}

// 3 and −2 at slope 5: lawful; with a pad bit 6; with −3 8 at 1 and 0.
fn small_records(heap: Global) -> Result<bool, AllocError> {
    // A loop: `all` has no place for want of memory.
    for (end, verdict) in [
        (0xE0, Ok(())),
        (0xE1, Err(Denial::bare(6))),
        (0xD0, broken(1, 0)),
    ] {
        let record = [0, 0x10, 0, 0x50, 0, 0, 0, 0x3F, 0xFF, end];
        if !is_judged(heap, &record, verdict)? {
            return Ok(false);
        }
    }
    Ok(true)
}

// The naive survey of the sheet at tolerance 3, settled.
fn naive_settled(heap: Global) -> Result<naive::survey::Survey, AllocError> {
    let sheet = sheet(heap, 5, 0, &HEIGHTS.map(i64::from))?;
    let asked: Vec<u32> = (0..11).collect(heap)?;
    let gauge = sheet.meaning(heap, 1, &asked)?;
    let mut survey = naive::survey::Survey::open(heap, gauge.line, 3, 256);
    let _ = ruled(survey.call(heap, &gauge, Call::Run(9)))?;
    Ok(survey)
}

// Both certificates in a buffer of some bytes: the answer, and what the buffer then holds.
fn is_certified(
    heap: Global,
    log: &Log,
    answer: Result<u64, Denial>,
    bytes: &[u8],
) -> Result<bool, AllocError> {
    let mut buffer = Vec::from_elem(heap, 0u8, bytes.len())?;
    let mut other = Vec::from_elem(heap, 0u8, bytes.len())?;
    let survey = naive_settled(heap)?;
    let written = naive_texts::certificate::certify(heap, &survey, &mut other);
    Ok(
        certify(log, &mut buffer).into_naive() == answer
            && ruled(written)? == answer
            && buffer.as_slice() == bytes
            && other.as_slice() == bytes,
    )
}

// The certificate of 30 bytes; 29 are too few.
fn certificate_of_30(heap: Global) -> Result<bool, AllocError> {
    let (Ok(()), Ok(setting)) = (Table::check(&HEIGHTS, 5, 0, 1), Setting::new(3, 256)) else {
        return Ok(false);
    };
    let mut survey = Survey::open(Table::new(&HEIGHTS, 5, 0, 1), setting);
    let _ = survey.run(9);
    let log = survey.log();
    Ok(
        is_certified(heap, log, Ok(30), &CERTIFICATE)?
            && is_certified(heap, log, Err(Denial::bare(21)), &[0; 29])?,
    )
}

// Slope 1, slack 4, last 4, touches 0 (height 0) and 2 (height 6): the caps at 1, 3, 4 are 5, 7, 8.
fn caps_by_all_touches(heap: Global) -> Result<bool, AllocError> {
    let line = Line {
        last: 4,
        slope: 1,
        slack: 4,
    };
    let touches = [(0, 0), (2, 6)].map(|(position, height)| Touch { position, height });
    let others = touches.map(|touch| touch.into_naive());
    let naive = naive::envelope::Touches {
        line: line.into_naive(),
        list: &others,
    };
    let known = [(1, 5), (3, 7), (4, 8)];
    let look = Look {
        line,
        touches: Vec::from_slice(heap, &touches)?,
        tolerance: 1,
    };
    Ok(known.iter().all(|(x, cap)| naive.cap(*x) == Some(*cap)) && look.do_texts_agree(heap)?)
}

// The worked talk.
fn worked_talk(heap: Global) -> Result<bool, AllocError> {
    let text = "tol 0 0 - - -\nhigh 0 1 0 0 50\nrun 13 5 3 10 10\nhigh 13 5 3 10 10\n";
    let input = b"tol 3\nhigh\nrun 9\nhigh";
    Ok(
        print(heap, &RECORD, input)?.as_str() == text
            && transcript(heap, &RECORD, input)?.as_str() == text
            && print(heap, &[], input)?.as_str() == "sheet 1\n"
            && transcript(heap, &[], input)?.as_str() == "sheet 1\n",
    )
}

impl Case for Example {
    fn agrees(&self, clerk: &mut Clerk) -> Result<bool, AllocError> {
        let heap = clerk.heap;
        match self {
            Example::NeighboursKeepTheLaw => neighbours_keep_the_law(heap),
            Example::SmallRecords => small_records(heap),
            Example::CapsByAllTouches => caps_by_all_touches(heap),
            Example::CertificateOf30 => certificate_of_30(heap),
            Example::WorkedTalk => worked_talk(heap),
        }
    }
}
