// The library for callers that are not Rattle: numbers and byte slices, a refusal as its number, values through `&mut`.
#![tactic(auto)]

ghost use Rattle.std.specs.Prelude.{◌≡◌, Ok, Err, length, IfOk, MatchResult};
ghost use Rattle.records.specs.Laws.{record_meaning};
ghost use Rattle.records.specs.Verdict.{record_verdict};
ghost use Rattle.logs.specs.Logs.{state_of};
ghost use Rattle.certificates.specs.Verdict.{verdict_on, left_by_survey};
ghost use Rattle.exports.specs.Exports.{number_of, opening_verdict, IsSetUp, figures_with, figures_left, settling, certificate_answer, certificate_left, length_left};

use bed::survey::Survey;
use bed::survey::opening::start;
use certificates::writer::certify;
use gauges::gauge::Gauge;
use records::record::{Record, check};
use surveys::answers::{Course, Report};
use terms::limits::TOUCHES_MAX;
use terms::refusal::Refusal;

// The name of the record's gauge, as `transcripts` has it; neither crate rests on the other.
const NAME: u8 = 1;

// A run's course and what the survey then tells; before the first touch 0 stands for each figure, since C has no Option.
#[repr(C)]
#[derive(Clone, Copy)]
pub struct Figures {
    // How many touches the run made, and the number of its stop.
    pub made: u32,
    pub stop: u8,
    pub touches: u16,
    // The floor with its position.
    pub place: u16,
    pub floor: i16,
    pub ceiling: i32,
}

// The course beside what ask answered after it.
fn figures_with(course: Course, told: Result<Report, Refusal>) -> Figures
    ensures { result ≡ figures_with course told }
{
    let made = course.made;
    let stop = course.stop.number();
    match told {
        Ok(report) => Figures {
            made,
            stop,
            touches: report.touches,
            place: report.floor.position,
            floor: report.floor.height,
            ceiling: report.ceiling,
        },
        Err(_) => Figures {
            made,
            stop,
            touches: 0,
            place: 0,
            floor: 0,
            ceiling: 0,
        },
    }
}

// The survey of a record at a tolerance, once both have passed their tests.
fn open(bytes: &[u8], tolerance: u32) -> Result<Survey<Record<'_>>, Refusal>
    ensures verdict { MatchResult result (λ _. opening_verdict bytes.now tolerance ≡ Ok tt) (λ r. opening_verdict bytes.now tolerance ≡ Err r) }
    ensures survey { IfOk result (λ s. IsSetUp bytes.now tolerance (record_meaning s.gauge.bytes.now s.gauge.name) (state_of s.log)) }
{
    check(bytes, NAME)?;
    let mut survey = Survey::open(Record::new(bytes, NAME), start());
    survey.tol(tolerance)?;
    Ok(survey)
}

// Runs over a record.
fn run(bytes: &[u8], tolerance: u32, budget: u32, figures: &mut Figures) -> Result<(), Refusal>
    ensures answer { result ≡ opening_verdict bytes.now tolerance }
    ensures figures { figures.new ≡ figures_left bytes.now tolerance budget figures.old }
{
    let mut survey = open(bytes, tolerance)?;
    let course = survey.run(budget);
    *figures = figures_with(course, survey.ask());
    Ok(())
}

// 0 where accepted, else the number of the refusal.
fn number_of<T: Copy>(answer: Result<T, Refusal>) -> u8
    ensures { result ≡ number_of answer }
{
    answer.err().map_or(0, |refusal| refusal.number())
}

// Tests a record that is to be the gauge of that name: 0, or the number of the refusal.
#[unsafe(no_mangle)]
pub extern "C" fn survey_check(bytes: &[u8], name: u8) -> u8
    ensures { result ≡ number_of (record_verdict bytes.now name) }
{
    number_of(check(bytes, name))
}

// Runs high over a record at a tolerance, and tells the figures: 0, or the number of the refusal, which leaves the figures as they were.
#[unsafe(no_mangle)]
pub extern "C" fn survey_run(bytes: &[u8], tolerance: u32, budget: u32, figures: &mut Figures) -> u8
    ensures answer { result ≡ number_of (opening_verdict bytes.now tolerance) }
    ensures figures { figures.new ≡ figures_left bytes.now tolerance budget figures.old }
{
    number_of(run(bytes, tolerance, budget, figures))
}

// Touches until the survey is settled, or the budget is spent, and writes its certificate.
fn settle<G: Gauge>(
    survey: &mut Survey<G>,
    budget: u32,
    buffer: &mut [u8],
) -> Result<usize, Refusal>
    ensures answer { result ≡ verdict_on (settling (G.Gauge.meaning survey.old.gauge).reading (state_of survey.old.log) budget) (length buffer.old) }
    ensures bytes { buffer.new ≡ left_by_survey (settling (G.Gauge.meaning survey.old.gauge).reading (state_of survey.old.log) budget) buffer.old }
{
    let _ = survey.run(budget);
    certify(survey.log(), buffer)
}

// The certificate of the sheet of a record.
fn certificate(bytes: &[u8], tolerance: u32, buffer: &mut [u8]) -> Result<usize, Refusal>
    ensures answer { result ≡ certificate_answer bytes.now tolerance (length buffer.old) }
    ensures bytes { buffer.new ≡ certificate_left bytes.now tolerance buffer.old }
{
    let mut survey = open(bytes, tolerance)?;
    settle(&mut survey, TOUCHES_MAX, buffer)
}

// Probes a sheet and writes its certificate to the front of the buffer: 0 and the number of its bytes, or the number of the refusal, which leaves both as they were.
#[unsafe(no_mangle)]
pub extern "C" fn survey_certificate(
    bytes: &[u8],
    tolerance: u32,
    buffer: &mut [u8],
    written: &mut usize,
) -> u8
    ensures answer { result ≡ number_of (certificate_answer bytes.now tolerance (length buffer.old)) }
    ensures bytes { buffer.new ≡ certificate_left bytes.now tolerance buffer.old }
    ensures written { written.new ≡ length_left (certificate_answer bytes.now tolerance (length buffer.old)) written.old }
{
    let answer = certificate(bytes, tolerance, buffer);
    if let Ok(size) = answer {
        *written = size;
    }
    number_of(answer)
}
