// The lit places of a ring as two 64-bit words: ones count the lit places, trailing zeros of the complement find the lowest unlit one, of
// all places or of those of one direction.

#![tactic(auto)]

ghost use Rattle.std.specs.Prelude.{◌<◌, ◌≤◌, ◌≡◌};
ghost use Rattle.limits.specs.Limits.{place_count};
ghost use Rattle.lit_words.specs.Lit.{lit_bit, ones_of, none_lit_from};
ghost use Rattle.lit_words.specs.With.{with_place, RoomFor};
ghost use Rattle.lit_words.specs.Sets.{either_of, both_of};
ghost use Rattle.lit_words.specs.Unlit.{unlit_by, unlit_in, places_of, with_way};

use lightpath::Direction;
use limits::PLACE_COUNT;
use std::ops::{BitAnd, BitOr};

// The clockwise places as the bits of a word: the even ones.
const CLOCKWISE_PLACES: u64 = 0x5555555555555555;

// The counterclockwise places: the odd ones.
const COUNTERCLOCKWISE_PLACES: u64 = 0xaaaaaaaaaaaaaaaa;

// The lit places: place p is bit p of low, or bit p - 64 of high.
#[derive(Clone, Copy, Debug, PartialEq, Eq)]
pub struct Lit {
    pub low: u64,
    pub high: u64,
}

// The places of a direction as the bits of a word.
fn places_of(direction: Direction) -> u64
    ensures { result ≡ places_of direction }
{
    match direction {
        Direction::Clockwise => CLOCKWISE_PLACES,
        Direction::Counterclockwise => COUNTERCLOCKWISE_PLACES,
    }
}

impl Lit {
    // Whether a place is lit.
    pub fn is_lit(self, place: usize) -> bool
        requires { place < place_count }
        ensures { result ≡ lit_bit self place }
    {
        if place < 64 {
            (self.low >> place) % 2 == 1
        } else {
            (self.high >> (place - 64)) % 2 == 1
        }
    }

    // Whether no place from the limit on is lit.
    pub fn none_lit_from(self, limit: usize) -> bool
        ensures { result ≡ none_lit_from limit (lit_bit self) }
    {
        (limit..PLACE_COUNT).all(|place| !self.is_lit(place))
    }

    // How many places are lit.
    pub fn count(self) -> u32
        ensures { result ≡ ones_of self }
    {
        self.low.count_ones() + self.high.count_ones()
    }

    // The lowest unlit place, or 128 where all are lit.
    fn lowest_unlit(self) -> u32
        ensures { result ≡ unlit_by self }
    {
        let low = (!self.low).trailing_zeros();
        if low < 64 {
            low
        } else {
            64 + (!self.high).trailing_zeros()
        }
    }

    // The words with all places of a direction.
    fn with_way(self, direction: Direction) -> Lit
        ensures { result ≡ with_way self direction }
    {
        let places = places_of(direction);
        Lit {
            low: self.low | places,
            high: self.high | places,
        }
    }

    // The lowest unlit place of a direction below a limit, or the limit where all of them are lit.
    pub fn lowest_unlit_in(self, direction: Direction, limit: usize) -> usize
        requires { limit ≤ place_count }
        ensures { result ≡ unlit_in self direction limit }
    {
        let lowest = self.with_way(direction.other()).lowest_unlit() as usize;
        lowest.min(limit)
    }

    // The words with one place more, which they do not have yet.
    pub fn with(self, place: usize) -> Lit
        requires { RoomFor self place }
        ensures { result ≡ with_place self place }
    {
        if place < 64 {
            Lit {
                low: self.low + (1 << place),
                ..self
            }
        } else {
            Lit {
                high: self.high + (1 << (place - 64)),
                ..self
            }
        }
    }
}

// The places that one or the other has.
impl BitOr for Lit {
    type Output = Lit;

    ghost bitor_gives = { λ a b result. result ≡ either_of a b };

    fn bitor(self, other: Lit) -> Lit {
        Lit {
            low: self.low | other.low,
            high: self.high | other.high,
        }
    }
}

// The places that both have.
impl BitAnd for Lit {
    type Output = Lit;

    ghost bitand_gives = { λ a b result. result ≡ both_of a b };

    fn bitand(self, other: Lit) -> Lit {
        Lit {
            low: self.low & other.low,
            high: self.high & other.high,
        }
    }
}
