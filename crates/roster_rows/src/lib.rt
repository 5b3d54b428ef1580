// Lookups by node on a roster, for a host: the circuits that a node sends, and one of them by its number. A call takes the roster whole, and
// a look changes nothing.

#![tactic(auto)]

ghost use Rattle.std.specs.Prelude.{◌≡◌, true, [], ◌≤◌, length, Ok, Err};
ghost use Rattle.limits.specs.Limits.{most_ports};
ghost use Rattle.refusals.specs.Answer.{answer_by};
ghost use Rattle.roster.specs.Roster.{entries_in, stands};
ghost use Rattle.roster_rows.specs.Lookups.{sent_by, in_room, sent_of, row_of_roster, numbered, circuit_of_roster, lookup_reasons, circuit_values, row_answer, lookup_answer};

use channels::Standing;
use lightpath::BLANK_CIRCUIT;
use limits::MOST_PORTS;
use refusals::{Refusal, Verdict};
use roster::Roster;

// The circuits that a node sends at most: each has a port.
pub const MOST_SENT: usize = MOST_PORTS as usize;

// A circuit and a place with all fields zero.
const BLANK: Standing = Standing {
    place: 0,
    circuit: BLANK_CIRCUIT,
};

// The circuits that a node sends, by rising number, each with its place: the first `count` of the list. Those after them are blank, and all of
// a refused lookup.
#[derive(Clone, Copy)]
pub struct Sent {
    pub list: [Standing; MOST_SENT],
    pub count: usize,
    pub verdict: Verdict,
}

// The row of a refused lookup.
fn no_row(refusal: Refusal) -> Sent
    ensures { result ≡ sent_of [] (Err refusal) }
{
    Sent {
        list: [BLANK; MOST_SENT],
        count: 0,
        verdict: Err(refusal),
    }
}

// The entries of keys and rests, in their order, and blank ones after them.
fn gather(keys: &[u64], rests: &[u64]) -> [Standing; MOST_SENT]
    requires { (length keys.now ≤ most_ports) × (length rests.now ≡ length keys.now) }
    ensures { result ≡ in_room (entries_in keys.now rests.now) }
{
    let mut list = [BLANK; MOST_SENT];
    for (i, key) in keys.iter().enumerate() {
        list[i] = entries::entry_of(*key, rests[i]);
    }
    list
}

// The circuits that a node sends, on a roster that stands.
pub fn row_valid(roster: Roster, node: u8) -> Sent
    requires { stands roster ≡ true }
    ensures answer { result ≡ row_of_roster roster node }
    ensures numbers { row_answer result ≡ answer_by (lookup_reasons roster node) (circuit_values (sent_by roster node)) }
{
    let heading = roster.heading;
    if !lightpath::on_ring(heading.nodes, node) {
        return no_row(Refusal::OffRing);
    }
    let keys = roster.keys;
    let rests = roster.rests;
    let row = rows::row_of(&keys[..heading.count as usize], node);
    let list = gather(&keys[row.start..row.end], &rests[row.start..row.end]);
    Sent {
        list,
        count: row.end - row.start,
        verdict: Ok(()),
    }
}

// The circuits that a node sends, by rising number, each with its place.
pub fn row(roster: Roster, node: u8) -> Sent
    ensures answer { result ≡ row_of_roster roster node }
    ensures numbers { row_answer result ≡ answer_by (lookup_reasons roster node) (circuit_values (sent_by roster node)) }
{
    if !roster.stands() {
        return no_row(Refusal::BrokenRule);
    }
    row_valid(roster, node)
}

// The circuit of a number that a node sends, if there is one, on a roster that stands: a search by halves.
pub fn circuit_of_valid(roster: Roster, node: u8, number: u32) -> Result<Option<Standing>, Refusal>
    requires { stands roster ≡ true }
    ensures answer { result ≡ circuit_of_roster roster node number }
    ensures numbers { lookup_answer result ≡ answer_by (lookup_reasons roster node) (lookup_answer (Ok (numbered number (sent_by roster node)))).values }
{
    let heading = roster.heading;
    if !lightpath::on_ring(heading.nodes, node) {
        return Err(Refusal::OffRing);
    }
    let keys = roster.keys;
    let rests = roster.rests;
    match rows::position(&keys[..heading.count as usize], node, number) {
        Some(at) => Ok(Some(entries::entry_of(keys[at], rests[at]))),
        None => Ok(None),
    }
}

// The circuit of a number that a node sends, with its place, if there is one; or why that is not asked.
pub fn circuit_of(roster: Roster, node: u8, number: u32) -> Result<Option<Standing>, Refusal>
    ensures answer { result ≡ circuit_of_roster roster node number }
    ensures numbers { lookup_answer result ≡ answer_by (lookup_reasons roster node) (lookup_answer (Ok (numbered number (sent_by roster node)))).values }
{
    if !roster.stands() {
        return Err(Refusal::BrokenRule);
    }
    circuit_of_valid(roster, node, number)
}
