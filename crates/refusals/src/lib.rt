// Document 01's refusals, their numbers, and whether a call goes ahead.

#![tactic(auto)]

ghost use Rattle.std.specs.Prelude.{◌≡◌};
ghost use Rattle.refusals.specs.Refusal.{number_of};

// Why a call is refused. `u8::from` gives document 01's number of each.
#[derive(Clone, Copy, Debug, PartialEq, Eq)]
pub enum Refusal {
    NodeCount,
    PortCount,
    PortSum,
    OffRing,
    SameNode,
    NumberLive,
    NoTransmitter,
    NoReceiver,
    NotLive,
    NoWavelength,
    NoDirection,
    ShortList,
    ShortBuffer,
    BrokenRule,
    CutShort,
    BadField,
    TrailingBytes,
    BrokenForm,
    NoSpacing,
    NoStart,
    OffPlan,
}

// Whether a request goes ahead.
pub type Verdict = Result<(), Refusal>;

// Document 01's number of a refusal.
impl From<Refusal> for u8 {
    ghost from_gives = { λ refusal number. number ≡ number_of refusal };

    fn from(refusal: Refusal) -> u8 {
        match refusal {
            Refusal::NodeCount => 1,
            Refusal::PortCount => 2,
            Refusal::PortSum => 3,
            Refusal::OffRing => 10,
            Refusal::SameNode => 11,
            Refusal::NumberLive => 12,
            Refusal::NoTransmitter => 13,
            Refusal::NoReceiver => 14,
            Refusal::NotLive => 15,
            Refusal::NoWavelength => 16,
            Refusal::NoDirection => 17,
            Refusal::ShortList => 20,
            Refusal::ShortBuffer => 21,
            Refusal::BrokenRule => 22,
            Refusal::CutShort => 30,
            Refusal::BadField => 31,
            Refusal::TrailingBytes => 32,
            Refusal::BrokenForm => 33,
            Refusal::NoSpacing => 41,
            Refusal::NoStart => 42,
            Refusal::OffPlan => 43,
        }
    }
}
