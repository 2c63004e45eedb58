// Refusals and faults in plain sentences, for people.
ghost use Rattle.std.specs.Prelude.{◌≡◌, Some};
ghost use Rattle.terms.specs.Texts.{sentence_of, cause_words, fault_text, told_text, refusal_text};

use crate::fault::{Cause, Fault};
use crate::refusal::{Refusal, Told};
use std::fmt;

impl Refusal {
    // What each refusal says.
    pub fn sentence(&self) -> &'static str
        ensures { result.now ≡ sentence_of self.now }
    {
        match self {
            Refusal::RecordTooShort => "the record has fewer than 6 bytes",
            Refusal::LastOutOfRange => "the last position is 0 or above 4,000",
            Refusal::SlopeOutOfRange => "the slope is 0 or above 40,000",
            Refusal::SlackOutOfRange => "the slack is above 40,000",
            Refusal::RecordLengthWrong =>
                "the record has not the length that its last position calls for",
            Refusal::PadBitSet => "a bit after the last height is 1",
            Refusal::HeightOutOfRange { .. } => "a height is outside -20,000 to 20,000",
            Refusal::LawBroken { .. } => "two heights differ by more than slope x distance + slack",
            Refusal::NameZero => "the gauge has the name 0",
            Refusal::StepOutOfRange => "the step is outside 1 to 1,000",
            Refusal::PositionBeyondLast => "the position is beyond the last",
            Refusal::AlreadyTouched => "the position is touched already",
            Refusal::AlreadySettled => "the survey is settled",
            Refusal::LimitReached => "the touches have reached the limit",
            Refusal::BudgetSpent => "the budget of the run is spent",
            Refusal::GaugeFault(_) => "the gauge has no height there",
            Refusal::ToleranceOutOfRange => "the tolerance is above 40,000",
            Refusal::LimitOutOfRange => "the touch limit is 0 or above 256",
            Refusal::NothingTouched => "nothing is touched yet",
            Refusal::NotSettled => "the survey is not settled",
            Refusal::BufferTooShort => "the buffer is too short",
            Refusal::NotACommand => "the line is no command",
        }
    }
}

impl fmt::Display for Cause {
    ghost output = { λ c. Some (cause_words c) };

    fn fmt<W: fmt::Write>(&self, f: &mut fmt::Formatter<W>) -> fmt::Result {
        match self {
            Cause::Beyond => write!(f, "beyond the last position"),
            Cause::Unread => write!(f, "no reading"),
        }
    }
}

impl fmt::Display for Fault {
    ghost output = { λ x. Some (fault_text x) };

    fn fmt<W: fmt::Write>(&self, f: &mut fmt::Formatter<W>) -> fmt::Result {
        let number = self.cause.number();
        let cause = self.cause;
        let position = self.position;
        let gauge = self.gauge;
        let layers = self.layers;
        write!(
            f,
            "fault {number} ({cause}) at position {position}, gauge {gauge}, layers {layers}"
        )
    }
}

// The values that a refusal tells, as they follow its sentence.
impl fmt::Display for Told {
    ghost output = { λ t. Some (told_text t) };

    fn fmt<W: fmt::Write>(&self, f: &mut fmt::Formatter<W>) -> fmt::Result {
        match self {
            Told::Nothing => Ok(()),
            Told::Position(position) => write!(f, ", at position {position}"),
            Told::Pair { later, earlier } => write!(f, ", at positions {later} and {earlier}"),
            Told::Fault(fault) => write!(f, ": {fault}"),
        }
    }
}

// The number, the sentence and the told values.
impl fmt::Display for Refusal {
    ghost output = { λ r. Some (refusal_text r) };

    fn fmt<W: fmt::Write>(&self, f: &mut fmt::Formatter<W>) -> fmt::Result {
        let number = self.number();
        let sentence = self.sentence();
        let told = self.tells();
        write!(f, "{number}: {sentence}{told}")
    }
}
