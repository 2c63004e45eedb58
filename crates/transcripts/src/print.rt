ghost use Rattle.std.specs.Prelude.{◌≡◌, [], ◌∷◌, ◌++◌, length, is_ok, IfOk, string_bytes, codes, decimal};
ghost use Rattle.terms.specs.Refusals.{number};
ghost use Rattle.records.specs.Verdict.{record_verdict};
ghost use Rattle.surveys.specs.Moments.{answers_to};
ghost use Rattle.commands.specs.Lines.{line_end};
ghost use Rattle.commands.specs.Orders.{orders};
ghost use Rattle.transcripts.specs.Talks.{EveryTalkKeepsTheLaw, ReadsEnough, SixWords, WorkedTalk, sheet_read, input_read};
ghost use Rattle.transcripts.specs.Transcripts.{gauge_name, started, transcript, unless_long, printed};

use crate::lines::{gather_calls, print_lines};
use bed::survey::opening::start;
use bed::work::work_through;
use gauges::gauge::Gauge;
use records::record::{Record, check};
use std::alloc::{AllocError, Global};
use surveys::answers::Answer;
use surveys::calls::Call;
use terms::refusal::Refusal;

// The name of the record's gauge, by this crate's own definitions; `accounts`, `policies` and `exports` name it alike, and none of the four rests on another.
const GAUGE_NAME: u8 = 1;

// The most bytes of a record.
const SHEET_MAX: u64 = 8_008;

// The most bytes of an input.
const INPUT_MAX: usize = 4_096;

// Stands in the buffer before the answers do.
const BLANK: Answer = Answer::Set(Ok(()));

// Works through the calls to a survey of the gauge; the answers fill the buffer.
fn make_calls<G: Gauge + Drop>(gauge: G, calls: &[Call], answers: &mut [Answer])
    requires { length answers.old ≡ length calls.now }
    ensures { answers.new ≡ answers_to (G.Gauge.meaning gauge).reading (started (G.Gauge.meaning gauge)) calls.now }
{
    let _survey = work_through(gauge, start(), calls, answers);
}

// The answers to the calls.
fn answer_calls<G: Gauge + Drop>(
    heap: Global,
    gauge: G,
    calls: &[Call],
) -> Result<Vec<Answer>, AllocError>
    ensures { IfOk result (λ v. v.items ≡ answers_to (G.Gauge.meaning gauge).reading (started (G.Gauge.meaning gauge)) calls.now) }
{
    let mut answers = vec![in heap; BLANK; calls.len()]?;
    make_calls(gauge, calls, answers.as_mut_slice());
    Ok(answers)
}

// What is printed for an input over the gauge.
fn converse<G: Gauge + Drop>(heap: Global, gauge: G, input: &[u8]) -> Result<String, AllocError>
    ensures { IfOk result (λ t. string_bytes t ≡ transcript (G.Gauge.meaning gauge).reading (started (G.Gauge.meaning gauge)) (orders input.now)) }
{
    let calls = gather_calls(heap, input)?;
    let answers = answer_calls(heap, gauge, calls.as_slice())?;
    print_lines(heap, input, answers.as_slice())
}

// The same, where the input may be too long.
fn reply<G: Gauge + Drop>(heap: Global, gauge: G, input: &[u8]) -> Result<String, AllocError>
    ensures { IfOk result (λ t. string_bytes t ≡ unless_long input.now (transcript (G.Gauge.meaning gauge).reading (started (G.Gauge.meaning gauge)) (orders input.now))) }
{
    if input.len() > INPUT_MAX {
        return format!(in heap; "long\n");
    }
    converse(heap, gauge, input)
}

// What is printed for a refused record.
fn refuse(heap: Global, refusal: Refusal) -> Result<String, AllocError>
    ensures { IfOk result (λ t. string_bytes t ≡ codes "sheet " ++ (decimal (number refusal) ++ line_end ∷ [])) }
{
    let number = refusal.number();
    format!(in heap; "sheet {number}\n")
}

// The tests of the record, and what holds of every talk over an accepted one.
fn test_sheet(sheet: &[u8]) -> Result<(), Refusal>
    ensures verdict { result ≡ record_verdict sheet.now gauge_name }
    ensures law { EveryTalkKeepsTheLaw }
    ensures reads { ReadsEnough }
    ensures words { SixWords }
    ensures example { WorkedTalk }
{
    check(sheet, GAUGE_NAME)
}

// How many bytes of a record are read: one more than the longest has.
pub fn sheet_bound() -> u64
    ensures { result ≡ sheet_read }
{
    SHEET_MAX + 1
}

// How many bytes of an input are read: one more than the longest has.
pub fn input_bound() -> u64
    ensures { result ≡ input_read }
{
    INPUT_MAX as u64 + 1
}

// Whether the record is accepted; a refused one prints the same for every input, so that none has to be read.
pub fn is_accepted(sheet: &[u8]) -> bool
    ensures accepted { result ≡ is_ok (record_verdict sheet.now gauge_name) }
    ensures reads { ReadsEnough }
{
    test_sheet(sheet).is_ok()
}

// What the program prints for the bytes of a record and of an input.
pub fn print(heap: Global, sheet: &[u8], input: &[u8]) -> Result<String, AllocError>
    ensures text { IfOk result (λ t. string_bytes t ≡ printed sheet.now input.now) }
    ensures law { EveryTalkKeepsTheLaw }
    ensures reads { ReadsEnough }
    ensures words { SixWords }
    ensures example { WorkedTalk }
{
    match test_sheet(sheet) {
        Err(refusal) => refuse(heap, refusal),
        Ok(()) => reply(heap, Record::new(sheet, GAUGE_NAME), input),
    }
}
