ghost use Rattle.std.specs.Prelude.{◌≡◌};
ghost use Rattle.terms.specs.Refusals.{number, told};
ghost use Rattle.terms.specs.declared.refusal.Refusal.TheVariants.{GaugeFault};

use crate::fault::Fault;

// Why a call is refused, or why a run of touches stops. The numbers are 1 to 22 in this order.
#[derive(Clone, Copy, PartialEq, Eq, Debug)]
pub enum Refusal {
    // A record has fewer bytes than its first three fields take.
    RecordTooShort,
    LastOutOfRange,
    SlopeOutOfRange,
    SlackOutOfRange,
    // A record has not the length that its last position calls for.
    RecordLengthWrong,
    PadBitSet,
    // The lowest position whose height is out of range, where there is a list of heights.
    HeightOutOfRange { position: Option<u32> },
    // The lowest position that breaks the law with an earlier one, and the lowest such earlier one.
    LawBroken { later: u32, earlier: u32 },
    NameZero,
    StepOutOfRange,
    PositionBeyondLast,
    AlreadyTouched,
    AlreadySettled,
    LimitReached,
    BudgetSpent,
    // The gauge answered this fault, which is passed on whole.
    GaugeFault(Fault),
    ToleranceOutOfRange,
    LimitOutOfRange,
    NothingTouched,
    NotSettled,
    BufferTooShort,
    NotACommand,
}

// The values that a refusal tells beside its number.
#[derive(Clone, Copy, PartialEq, Eq, Debug)]
pub enum Told {
    // A case and no Option around the others: each refusal's text ends in what it tells, by one `{told}`.
    Nothing,
    Position(u32),
    Pair { later: u32, earlier: u32 },
    Fault(Fault),
}

impl Refusal {
    // The number of each refusal.
    pub fn number(&self) -> u8
        ensures { result ≡ number self.now }
    {
        match self {
            Refusal::RecordTooShort => 1,
            Refusal::LastOutOfRange => 2,
            Refusal::SlopeOutOfRange => 3,
            Refusal::SlackOutOfRange => 4,
            Refusal::RecordLengthWrong => 5,
            Refusal::PadBitSet => 6,
            Refusal::HeightOutOfRange { .. } => 7,
            Refusal::LawBroken { .. } => 8,
            Refusal::NameZero => 9,
            Refusal::StepOutOfRange => 10,
            Refusal::PositionBeyondLast => 11,
            Refusal::AlreadyTouched => 12,
            Refusal::AlreadySettled => 13,
            Refusal::LimitReached => 14,
            Refusal::BudgetSpent => 15,
            Refusal::GaugeFault(_) => 16,
            Refusal::ToleranceOutOfRange => 17,
            Refusal::LimitOutOfRange => 18,
            Refusal::NothingTouched => 19,
            Refusal::NotSettled => 20,
            Refusal::BufferTooShort => 21,
            Refusal::NotACommand => 22,
        }
    }

    // The values that each refusal tells.
    pub fn tells(&self) -> Told
        ensures { result ≡ told self.now }
    {
        match self {
            Refusal::HeightOutOfRange {
                position: Some(position),
            } => Told::Position(*position),
            Refusal::LawBroken { later, earlier } => Told::Pair {
                later: *later,
                earlier: *earlier,
            },
            Refusal::GaugeFault(fault) => Told::Fault(*fault),
            _ => Told::Nothing,
        }
    }
}

// A gauge's fault is the survey's refusal, whole.
impl From<Fault> for Refusal {
    ghost from_gives = { λ f r. r ≡ GaugeFault f };

    fn from(fault: Fault) -> Refusal {
        Refusal::GaugeFault(fault)
    }
}
