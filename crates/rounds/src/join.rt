// What joining a pair does: which places get what, and the moves.

ghost use Rattle.std.specs.Prelude.{◌≡◌, ◌<◌};
ghost use Rattle.limits.specs.Limits.{place_count};
ghost use Rattle.slots.specs.declared.Slot.TheVariants.{Unlit as unlit};
ghost use Rattle.channels.specs.Change.{◌gets◌};
ghost use Rattle.tidying.specs.Round.{to_member, to_unlit};
ghost use Rattle.rounds.specs.Joined.{join_in, Joins, Joinable};

use crate::{Joined, Room};
use channels::{Change, Changes, Standing};
use moves::Moves;
use slots::Slot;

// A place is left.
fn left(place: usize) -> Change
    ensures { result ≡ place gets unlit }
{
    Change {
        place,
        slot: Slot::Unlit,
    }
}

// a stays, and b moves to it.
fn to_member(a: Standing, b: Standing) -> Joined
    requires { (a.place < place_count) × (b.place < place_count) }
    ensures { Joins (to_member a b) result }
{
    Joined {
        changes: Changes::two(plan::shared(a.place, a.circuit, b.circuit), left(b.place)),
        moves: Moves::one(plan::moves_to(b, a.place)),
    }
}

// Both move to an unlit place, the lower old place first.
fn to_unlit(place: usize, a: Standing, b: Standing) -> Joined
    requires { (place < place_count) × (a.place < place_count) × (b.place < place_count) }
    ensures { Joins (to_unlit place a b) result }
{
    Joined {
        changes: Changes::three(
            plan::shared(place, a.circuit, b.circuit),
            left(a.place),
            left(b.place),
        ),
        moves: Moves::two(plan::moves_to(a, place), plan::moves_to(b, place)),
    }
}

// The pair is joined: where a member stands right it stays, the lower place if both do; where neither does, both go to the lowest unlit
// place of the direction in which they can share.
pub fn joined(nodes: u8, room: Room, a: Standing, b: Standing) -> Joined
    requires { Joinable nodes room a b }
    ensures { Joins (join_in nodes room a b) result }
{
    if plan::stands_right(nodes, a, b, a) {
        to_member(a, b)
    } else if plan::stands_right(nodes, a, b, b) {
        to_member(b, a)
    } else {
        let direction = a.circuit.share_direction(b.circuit, nodes);
        to_unlit(room.lowest(direction), a, b)
    }
}
