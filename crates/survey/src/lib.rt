// One pass over the places for a new circuit: what its ports and number are tested by, and what steps 1 and 2 look for. It goes down, so
// that of two circuits that the new one can join it keeps the lower. Every circuit counts, and only those below the limit are joined.

#![tactic(auto)]

ghost use Rattle.std.specs.Prelude.{◌≡◌, ◌&&◌, ◌<◌, ◌≤◌, ltb};
ghost use Rattle.limits.specs.Limits.{place_count};
ghost use Rattle.steps.specs.Steps.{can_join};
ghost use Rattle.survey.specs.Survey.{survey_of, unlit_seen, pass_with, Takes};

use channels::{Channel, Standing};
use lightpath::{BLANK_CIRCUIT, Circuit, Place};
use limits::PLACE_COUNT;
use lit_words::Lit;
use slots::Slot;

// How many circuits have the new one's number, how many its source sends and its destination receives; the one that it can join, with
// its place, or the limit with a blank circuit; and the lit places.
#[derive(Clone, Copy)]
pub struct Survey {
    pub numbered: usize,
    pub sent: usize,
    pub received: usize,
    pub join: Standing,
    pub lit: Lit,
}

// Whether a circuit can join what a place holds, and the place is below the limit.
fn can_join(nodes: u8, limit: usize, circuit: Circuit, place: usize, slot: Slot) -> bool
    requires { (0 < nodes) × (place < place_count) }
    ensures { result ≡ (ltb place limit && can_join nodes circuit place slot) }
{
    match slot {
        Slot::Alone(alone) => {
            place < limit && alone.can_share(circuit, nodes, Place(place as u8).direction())
        }
        Slot::Unlit | Slot::Shared(_, _) => false,
    }
}

// What was seen of the places above one: the counts, the place of the lowest circuit that the new one can join, or the limit, and the
// lit places.
#[derive(Clone, Copy)]
struct Pass {
    numbered: usize,
    sent: usize,
    received: usize,
    join: usize,
    lit: Lit,
}

impl Pass {
    // The same with that place, which changes nothing where it is unlit.
    fn with_place(self, nodes: u8, limit: usize, circuit: Circuit, place: usize, slot: Slot) -> Pass
        requires { (0 < nodes) × (place < place_count) × Takes self place }
        ensures { result ≡ pass_with nodes limit circuit place slot self }
    {
        if slot.is_unlit() {
            return self;
        }
        Pass {
            numbered: self.numbered + ports_used::numbered_at(slot, circuit.number),
            sent: self.sent + ports_used::sent_at(slot, circuit.source),
            received: self.received + ports_used::received_at(slot, circuit.destination),
            join: if can_join(nodes, limit, circuit, place, slot) {
                place
            } else {
                self.join
            },
            lit: self.lit.with(place),
        }
    }
}

impl Survey {
    // Step 2's place: the lowest unlit one of the circuit's shorter way, else of the other, or the limit where all are lit.
    pub fn unlit_place(self, nodes: u8, limit: usize, circuit: Circuit) -> usize
        requires { (0 < nodes) × (limit ≤ place_count) }
        ensures { result ≡ unlit_seen nodes limit circuit self }
    {
        let way = circuit.shorter_way(nodes);
        let near = self.lit.lowest_unlit_in(way, limit);
        if near < limit {
            return near;
        }
        self.lit.lowest_unlit_in(way.other(), limit)
    }
}

// What a new circuit has to know of the places.
pub fn survey_places(
    nodes: u8,
    limit: usize,
    channels: [Channel; PLACE_COUNT],
    circuit: Circuit,
) -> Survey
    requires { (0 < nodes) × (limit ≤ place_count) }
    ensures { result ≡ survey_of nodes limit channels circuit }
{
    let mut seen = Pass {
        numbered: 0,
        sent: 0,
        received: 0,
        join: limit,
        lit: Lit { low: 0, high: 0 },
    };
    for place in (0..PLACE_COUNT).rev() {
        seen = seen.with_place(nodes, limit, circuit, place, channels[place].slot);
    }
    let partner = if seen.join < limit {
        channels[seen.join].slot.first()
    } else {
        BLANK_CIRCUIT
    };
    Survey {
        numbered: seen.numbered,
        sent: seen.sent,
        received: seen.received,
        join: Standing {
            place: seen.join,
            circuit: partner,
        },
        lit: seen.lit,
    }
}
