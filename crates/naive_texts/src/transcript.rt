// What the command program prints.
use crate::commands::{call, verb};
use naive::gauges::Meaning;
use naive::records::{check, sheet_of};
use naive::survey::{Survey, result_number};
use naive::terms::{Touch, count_of, ruled};
use std::alloc::{AllocError, Global};

// One line: verb, result number, touches, floor position, floor, ceiling; the last three are - before the first touch.
fn printed_line(
    heap: Global,
    verb: &str,
    number: u8,
    survey: &Survey,
) -> Result<String, AllocError> {
    let touches = survey.touches.len();
    match survey.ask() {
        Ok(report) => {
            let Touch { position, height } = report.floor;
            let ceiling = report.ceiling;
            format!(in heap; "{verb} {number} {touches} {position} {height} {ceiling}\n")
        }
        Err(_) => format!(in heap; "{verb} {number} {touches} - - -\n"),
    }
}

// What a line that is not empty prints, after its call was made.
fn reply(
    heap: Global,
    survey: &mut Survey,
    gauge: &Meaning,
    line: &[u8],
) -> Result<String, AllocError> {
    let call = call(line);
    let number = match call {
        Some(call) => result_number(ruled(survey.call(heap, gauge, call))?),
        None => 22,
    };
    printed_line(heap, verb(call), number, survey)
}

// The lines that the commands print on a gauge. A command ends at byte 0A or at the end of the input; an empty one is skipped.
fn talk(heap: Global, gauge: &Meaning, input: &[u8]) -> Result<String, AllocError> {
    let mut out = String::new(heap);
    let mut survey = Survey::open(heap, gauge.line, 0, 256);
    let lines = input.split(|byte| *byte == 0x0A);
    for line in lines.filter(|line| !line.is_empty()) {
        out.push_str(reply(heap, &mut survey, gauge, line)?.as_str())?;
    }
    Ok(out)
}

// The gauge of name 1 that an accepted record is.
fn gauge_of(heap: Global, record: &[u8]) -> Result<Meaning, AllocError> {
    let sheet = sheet_of(heap, record)?;
    let asked: Vec<u32> = (0..count_of(&sheet.heights)).collect(heap)?;
    sheet.meaning(heap, 1, &asked)
}

// What is printed for a record and an input: a refused record comes first, then an input of more than 4,096 bytes.
pub fn transcript(heap: Global, record: &[u8], input: &[u8]) -> Result<String, AllocError> {
    if let Err(denial) = ruled(check(heap, record, 1))? {
        let number = denial.number;
        return format!(in heap; "sheet {number}\n");
    }
    if input.len() > 4_096 {
        return format!(in heap; "long\n");
    }
    talk(heap, &gauge_of(heap, record)?, input)
}
