// One pass over the entries of a roster for a new circuit: what its ports and number are tested by, and what steps 1 and 2 look for, as the
// pass over the places of a table gives it. A second pass finds the circuit to join, since only then it is known which places are shared.

#![tactic(auto)]

ghost use Rattle.std.specs.Prelude.{◌≡◌, ◌<◌, take};
ghost use Rattle.limits.specs.Limits.{place_count};
ghost use Rattle.lightpath.specs.Circuit.{adjacent};
ghost use Rattle.survey.specs.Survey.{survey_of};
ghost use Rattle.entries.specs.Entry.{entry_of};
ghost use Rattle.roster.specs.Roster.{places_of};
ghost use Rattle.roster.specs.Held.{Holds};
ghost use Rattle.roster_survey.specs.Pass.{one_place, place_in, pass_of, pass_with, Takes, Entered, joinable, nearer, Least, joinable_at, place_at, Reached, standing_in};

use channels::Standing;
use entries::{DESTINATION, NEXT_ROW, NODES};
use lightpath::{BLANK_CIRCUIT, Circuit, Place};
use lit_words::Lit;
use roster::Heading;
use survey::Survey;

// The words of one place, without a branch.
fn one_place(place: usize) -> Lit
    requires { place < place_count }
    ensures { result ≡ one_place place }
{
    let bit: u64 = 1 << (place % 64);
    let high = bit * (place / 64) as u64;
    Lit {
        low: bit - high,
        high,
    }
}

// What was seen of some entries: how many have the new circuit's number and how many go to its destination; the lit places, and those of
// them that two circuits share.
#[derive(Clone, Copy)]
struct Pass {
    numbered: usize,
    received: usize,
    lit: Lit,
    shared: Lit,
}

impl Pass {
    // The same with one entry more. Nothing is branched on: which entry lights its place, and which shares it, is hard to foresee.
    fn with_entry(self, circuit: Circuit, key: u64, rest: u64) -> Pass
        requires { Takes self rest }
        ensures { result ≡ pass_with circuit key rest self }
    {
        let numbered = key % NEXT_ROW == u64::from(circuit.number);
        let received = rest / DESTINATION % NODES == u64::from(circuit.destination);
        let here = one_place((rest % DESTINATION) as usize);
        Pass {
            numbered: self.numbered + usize::from(numbered),
            received: self.received + usize::from(received),
            lit: self.lit | here,
            shared: self.shared | self.lit & here,
        }
    }
}

// What is seen of the first count entries.
fn pass_entries(keys: &[u64], rests: &[u64], count: usize, circuit: Circuit) -> Pass
    requires { Entered keys.now rests.now count }
    ensures { result ≡ pass_of circuit (take count keys.now) (take count rests.now) }
{
    let mut seen = Pass {
        numbered: 0,
        received: 0,
        lit: Lit { low: 0, high: 0 },
        shared: Lit { low: 0, high: 0 },
    };
    for (key, rest) in keys[..count].iter().zip(&rests[..count]) {
        seen = seen.with_entry(circuit, *key, *rest);
    }
    seen
}

// Whether a circuit is adjacent to that of an entry.
fn is_adjacent(circuit: Circuit, key: u64, rest: u64) -> bool
    ensures { result ≡ adjacent (entry_of key rest).circuit circuit }
{
    rest / DESTINATION % NODES == u64::from(circuit.source)
        || u64::from(circuit.destination) == key / NEXT_ROW % NODES
}

// Whether a circuit can join that of an entry.
fn can_join(nodes: u8, circuit: Circuit, shared: Lit, key: u64, rest: u64) -> bool
    requires { (0 < nodes) × (place_in rest < place_count) }
    ensures { result ≡ joinable nodes circuit shared key rest }
{
    let place = (rest % DESTINATION) as usize;
    let direction = Place(place as u8).direction();
    let other = entries::entry_of(key, rest).circuit;
    !shared.is_lit(place) && other.can_share(circuit, nodes, direction)
}

// The lowest place found at which a circuit can be joined, or the limit, and the position of its entry.
#[derive(Clone, Copy)]
struct Nearest {
    place: usize,
    position: usize,
}

impl Nearest {
    // The same with one entry more.
    fn with_entry(
        self,
        nodes: u8,
        circuit: Circuit,
        shared: Lit,
        key: u64,
        rest: u64,
        position: usize,
    ) -> Nearest
        requires { (0 < nodes) × (place_in rest < place_count) }
        ensures { result ≡ nearer nodes circuit shared key rest position self }
    {
        // Asked first: most are not.
        if !is_adjacent(circuit, key, rest) {
            return self;
        }
        let place = (rest % DESTINATION) as usize;
        if self.place <= place || !can_join(nodes, circuit, shared, key, rest) {
            return self;
        }
        Nearest { place, position }
    }

    // The circuit of its entry, or a blank one at the limit.
    fn standing(self, limit: usize, keys: &[u64], rests: &[u64]) -> Standing
        requires { Reached limit keys.now rests.now self }
        ensures { result ≡ standing_in limit keys.now rests.now self }
    {
        if limit <= self.place {
            return Standing {
                place: limit,
                circuit: BLANK_CIRCUIT,
            };
        }
        entries::entry_of(keys[self.position], rests[self.position])
    }
}

// Of the first count entries the one to join.
fn find_join(
    nodes: u8,
    limit: usize,
    keys: &[u64],
    rests: &[u64],
    count: usize,
    circuit: Circuit,
    shared: Lit,
) -> Nearest
    requires { (0 < nodes) × Entered keys.now rests.now count }
    ensures { Least (joinable_at nodes circuit shared keys.now rests.now) (place_at rests.now) limit count result }
{
    let mut found = Nearest {
        place: limit,
        position: 0,
    };
    // By position: it is kept of the entry that is found.
    for i in 0..count {
        found = found.with_entry(nodes, circuit, shared, keys[i], rests[i], i);
    }
    found
}

// What a new circuit has to know of the entries.
pub fn survey_entries(
    heading: Heading,
    limit: usize,
    keys: &[u64],
    rests: &[u64],
    circuit: Circuit,
) -> Survey
    requires { Holds heading.nodes heading.ports (places_of keys.now rests.now heading.count) keys.now rests.now heading.count }
    ensures { result ≡ survey_of heading.nodes limit (places_of keys.now rests.now heading.count) circuit }
{
    let count = usize::from(heading.count);
    let row = rows::row_of(&keys[..count], circuit.source);
    let seen = pass_entries(keys, rests, count, circuit);
    let nearest = find_join(
        heading.nodes,
        limit,
        keys,
        rests,
        count,
        circuit,
        seen.shared,
    );
    Survey {
        numbered: seen.numbered,
        sent: row.end - row.start,
        received: seen.received,
        join: nearest.standing(limit, keys, rests),
        lit: seen.lit,
    }
}
