// What one directed wavelength place holds: nothing, one circuit alone, or two that share it.

#![tactic(auto)]

ghost use Rattle.std.specs.Prelude.{◌≡◌};
ghost use Rattle.slots.specs.Slot.{is_lit, is_unlit, is_alone, first_of, together, without, holds};

use lightpath::{BLANK_CIRCUIT, Circuit};

// The content of a place: unlit, one circuit alone, or two that share it, the lower number first.
#[derive(Clone, Copy, Debug, PartialEq, Eq)]
pub enum Slot {
    Unlit,
    Alone(Circuit),
    Shared(Circuit, Circuit),
}

impl Slot {
    // Whether a circuit is there.
    pub fn is_lit(self) -> bool
        ensures { result ≡ is_lit self }
    {
        !matches!(self, Slot::Unlit)
    }

    // Whether no circuit is there.
    pub fn is_unlit(self) -> bool
        ensures { result ≡ is_unlit self }
    {
        matches!(self, Slot::Unlit)
    }

    // Whether one circuit is there, nonsharing.
    pub fn is_alone(self) -> bool
        ensures { result ≡ is_alone self }
    {
        matches!(self, Slot::Alone(_))
    }

    // The first circuit there, or a blank one.
    pub fn first(self) -> Circuit
        ensures { result ≡ first_of self }
    {
        match self {
            Slot::Unlit => BLANK_CIRCUIT,
            Slot::Alone(a) | Slot::Shared(a, _) => a,
        }
    }

    // Two circuits together, the lower number first.
    pub fn together(a: Circuit, b: Circuit) -> Slot
        ensures { result ≡ together a b }
    {
        if a.number < b.number {
            Slot::Shared(a, b)
        } else {
            Slot::Shared(b, a)
        }
    }

    // Whether the circuit of a number is there.
    pub fn holds(self, number: u32) -> bool
        ensures { result ≡ holds number self }
    {
        match self {
            Slot::Unlit => false,
            Slot::Alone(a) => a.number == number,
            Slot::Shared(a, b) => a.number == number || b.number == number,
        }
    }

    // What is left without the circuit of a number, where that is there.
    pub fn without(self, number: u32) -> Slot
        ensures { result ≡ without number self }
    {
        match self {
            Slot::Unlit | Slot::Alone(_) => Slot::Unlit,
            Slot::Shared(a, b) if a.number == number => Slot::Alone(b),
            Slot::Shared(a, _) => Slot::Alone(a),
        }
    }
}
