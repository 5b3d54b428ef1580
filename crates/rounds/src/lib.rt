// A tidying by value: rounds, each of which joins the first pair of nonsharing circuits that can be joined, until none can be.

#![tactic(auto)]

ghost use Rattle.std.specs.Prelude.{◌≡◌, ◌<◌, ◌≤◌};
ghost use Rattle.limits.specs.Limits.{place_count};
ghost use Rattle.tidying.specs.Tidying.{tidy_up};
ghost use Rattle.rounds.specs.Joined.{join_in};
ghost use Rattle.rounds.specs.Tidied.{CanGoOn, After, tidied_places};

mod join;
mod search;
mod unlit;

use channels::{Changes, Channel, Standing};
use limits::PLACE_COUNT;
use moves::{MoveList, Moves};

// The lowest unlit place of each direction, or the limit where there is none.
#[derive(Clone, Copy)]
pub struct Room {
    pub clockwise: usize,
    pub counterclockwise: usize,
}

// A pair that can be joined.
#[derive(Clone, Copy)]
pub struct Hit {
    pub first: Standing,
    pub second: Standing,
}

// The pair of the next round, where there is one, and the room that there is for it.
#[derive(Clone, Copy)]
pub struct Next {
    pub hit: Option<Hit>,
    pub room: Room,
}

// What joining a pair does: which places get what, and the moves.
#[derive(Clone, Copy)]
pub struct Joined {
    pub changes: Changes,
    pub moves: Moves,
}

// The places after some rounds, the number of rounds, and the moves in their order.
#[derive(Clone, Copy)]
pub struct TidiedPlaces {
    pub channels: [Channel; PLACE_COUNT],
    pub rounds: u8,
    pub moves: MoveList,
}

// One round more: its pair is joined.
fn carry_out(nodes: u8, room: Room, hit: Hit, tidied: TidiedPlaces) -> TidiedPlaces
    requires { CanGoOn nodes room hit tidied }
    ensures { After (join_in nodes room hit.first hit.second) tidied result }
{
    let joined = join::joined(nodes, room, hit.first, hit.second);
    TidiedPlaces {
        channels: channels::changed(tidied.channels, joined.changes),
        rounds: tidied.rounds + 1,
        moves: tidied.moves.with(joined.moves),
    }
}

// Rounds until no pair can be joined. Each leaves two circuits fewer alone at their places.
pub fn tidy(nodes: u8, limit: usize, channels: [Channel; PLACE_COUNT]) -> TidiedPlaces
    requires { (0 < nodes) × (limit ≤ place_count) }
    ensures { result ≡ tidied_places (tidy_up nodes limit channels) }
{
    // Before the first round nothing is passed by, so that any room would do.
    let none = Room {
        clockwise: limit,
        counterclockwise: limit,
    };
    let mut next = search::next_round(nodes, limit, channels, none, 0);
    let mut tidied = TidiedPlaces {
        channels,
        rounds: 0,
        moves: MoveList::none(),
    };
    while let Some(hit) = next.hit {
        tidied = carry_out(nodes, next.room, hit, tidied);
        next = search::next_round(nodes, limit, tidied.channels, next.room, hit.first.place);
    }
    tidied
}
