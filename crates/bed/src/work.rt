// A list of calls, from the opening on.
ghost use Rattle.std.specs.Prelude.{◌≡◌, length, drop};
ghost use Rattle.surveys.specs.Example.{WorkedExample};
ghost use Rattle.surveys.specs.Laws.{Law};
ghost use Rattle.logs.specs.Logs.{state_of};
ghost use Rattle.bed.specs.Working.{worked};

use crate::survey::Survey;
use gauges::gauge::Gauge;
use logs::setting::Setting;
use surveys::answers::Answer;
use surveys::calls::Call;

// Opens the survey and makes the calls one by one. The public call stands on this contract alone, so that a wrong edit of it fails as a fact: a rule of the project.
fn work<G: Gauge>(gauge: G, setting: Setting, calls: &[Call], answers: &mut [Answer]) -> Survey<G>
    ensures gauge { result.gauge ≡ gauge }
    ensures law { Law (worked (G.Gauge.meaning gauge) setting calls.now answers.old answers.new) (state_of result.log) }
    ensures rest { drop (length calls.now) answers.new ≡ drop (length calls.now) answers.old }
    ensures example { WorkedExample }
{
    let mut survey = Survey::open(gauge, setting);
    let room = calls.len().min(answers.len());
    // By the place, since after a `zip` of `answers.iter_mut()` nothing is known of what was written.
    for (i, call) in calls[..room].iter().enumerate() {
        answers[i] = survey.call(*call);
    }
    survey
}

// Works through a list of calls to a new survey of the gauge: as many as the buffer has room for answers.
// The answers stand in the front of the buffer; what is after them stays as it was.
pub fn work_through<G: Gauge>(
    gauge: G,
    setting: Setting,
    calls: &[Call],
    answers: &mut [Answer],
) -> Survey<G>
    ensures gauge { result.gauge ≡ gauge }
    ensures law { Law (worked (G.Gauge.meaning gauge) setting calls.now answers.old answers.new) (state_of result.log) }
    ensures rest { drop (length calls.now) answers.new ≡ drop (length calls.now) answers.old }
    ensures example { WorkedExample }
{
    work(gauge, setting, calls, answers)
}
