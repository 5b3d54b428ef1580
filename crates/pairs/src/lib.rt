// Step 3's search: the first adjacent pair of the candidates, how many pairs are tested, and x.

#![tactic(auto)]

ghost use Rattle.std.specs.Prelude.{◌≡◌, ◌+◌, ◌<◌, ◌≤◌, length, find};
ghost use Rattle.basis.specs.Search.{pairs_of};
ghost use Rattle.limits.specs.Limits.{place_count};
ghost use Rattle.circuit_lists.specs.Gathering.{Gathers};
ghost use Rattle.steps.specs.Steps.{candidates, passed_in};
ghost use Rattle.pairs.specs.Pairs.{first_pair, stands_in, found_of, Searchable};

use channels::{Channel, Standing};
use circuit_lists::{Candidates, nonsharing_below};
use lightpath::{BLANK_CIRCUIT, Circuit, Direction, Place};
use limits::PLACE_COUNT;

// A pair of the candidates, and the number of pairs tested, that one included.
#[derive(Clone, Copy)]
pub struct Pair {
    pub first: Standing,
    pub second: Standing,
    pub looks: u16,
}

// The pair that step 3 finds, and x: of the nonsharing circuits in the direction that 3b would take, the one at the lowest place.
#[derive(Clone, Copy)]
pub struct Found {
    pub pair: Pair,
    pub x: Standing,
}

// A candidate with all fields zero.
const BLANK_STANDING: Standing = Standing {
    place: 0,
    circuit: BLANK_CIRCUIT,
};

// The nonsharing circuits by rising place, the new one last. It has no place yet and is listed at 128, nowhere.
fn candidates_for(limit: usize, channels: [Channel; PLACE_COUNT], circuit: Circuit) -> Candidates
    requires { limit ≤ place_count }
    ensures { Gathers (place_count + 1) result.list result.count (candidates limit channels circuit) }
{
    let mut all = nonsharing_below(channels, limit);
    all.list[all.count] = Standing {
        place: PLACE_COUNT,
        circuit,
    };
    all.count += 1;
    all
}

// The first adjacent pair of the candidates, where there is one: pairs by first member, then second.
fn first_pair(candidates: &[Standing]) -> Pair
    requires { (length candidates.now ≤ place_count + 1) × (passed_in candidates.now < length (pairs_of candidates.now)) }
    ensures { result ≡ first_pair candidates.now }
{
    let mut first = candidates[0];
    let mut second = candidates[0];
    let mut looks: u16 = 0;
    'pairs: for (i, a) in candidates.iter().enumerate() {
        for b in &candidates[i + 1..] {
            looks += 1;
            if a.circuit.adjacent(b.circuit) {
                first = *a;
                second = *b;
                break 'pairs;
            }
        }
    }
    Pair {
        first,
        second,
        looks,
    }
}

// Whether a candidate stands in a direction; the new one stands nowhere.
fn stands_in(standing: Standing, direction: Direction) -> bool
    ensures { result ≡ stands_in direction standing }
{
    standing.place < PLACE_COUNT && Place(standing.place as u8).direction() == direction
}

// The first of the candidates that stands in a direction.
fn first_in(candidates: &[Standing], direction: Direction) -> Option<Standing>
    ensures { result ≡ find (stands_in direction) candidates.now }
{
    candidates
        .iter()
        .copied()
        .find(|standing| stands_in(*standing, direction))
}

// What step 3 finds for a new circuit.
pub fn found_for(
    nodes: u8,
    limit: usize,
    channels: [Channel; PLACE_COUNT],
    circuit: Circuit,
) -> Found
    requires { Searchable nodes limit channels circuit }
    ensures { result ≡ found_of nodes limit channels circuit }
{
    let all = candidates_for(limit, channels, circuit);
    let candidates = &all.list[..all.count];
    let pair = first_pair(candidates);
    let direction = pair
        .first
        .circuit
        .share_direction(pair.second.circuit, nodes);
    Found {
        pair,
        x: first_in(candidates, direction).unwrap_or(BLANK_STANDING),
    }
}
