// The search for the next round of a tidying: the first pair of nonsharing circuits that can be joined.

ghost use Rattle.std.specs.Prelude.{◌≡◌, ◌&&◌, ◌<◌, ◌≤◌};
ghost use Rattle.basis.specs.Choice.{pick};
ghost use Rattle.basis.specs.Search.{pairs_of};
ghost use Rattle.limits.specs.Limits.{place_count};
ghost use Rattle.channels.specs.Nonsharing.{nonsharing};
ghost use Rattle.rounds.specs.Room.{gains};
ghost use Rattle.rounds.specs.Search.{joinable_in, first_hit, Skipping};
ghost use Rattle.rounds.specs.Next.{PassedBy, Finds};

use crate::unlit::room_of;
use crate::{Hit, Next, Room};
use channels::{Channel, Standing};
use limits::PLACE_COUNT;
use slots::Slot;

// Whether two nonsharing circuits can be joined: a member stands in a direction in which they can share, or there is an unlit place in it.
fn joinable(nodes: u8, limit: usize, room: Room, a: Standing, b: Standing) -> bool
    requires { 0 < nodes }
    ensures { result ≡ joinable_in nodes limit room (a, b) }
{
    a.circuit.adjacent(b.circuit)
        && (plan::stands_right(nodes, a, b, a)
            || plan::stands_right(nodes, a, b, b)
            || room.lowest(a.circuit.share_direction(b.circuit, nodes)) < limit)
}

// The first pair that can be joined, by first member, then second. No pair whose first member stands below `from` can be: such rows
// are passed by.
fn first_joinable(
    nodes: u8,
    limit: usize,
    room: Room,
    channels: [Channel; PLACE_COUNT],
    from: usize,
) -> Option<Hit>
    requires { (0 < nodes) × (limit ≤ place_count) × Skipping (joinable_in nodes limit room) from (pairs_of (nonsharing limit channels)) }
    ensures { result ≡ first_hit (joinable_in nodes limit room) (pairs_of (nonsharing limit channels)) }
{
    for p in from..limit {
        let Slot::Alone(circuit) = channels[p].slot else {
            continue;
        };
        let first = Standing { place: p, circuit };
        for q in p + 1..limit {
            let Slot::Alone(circuit) = channels[q].slot else {
                continue;
            };
            let second = Standing { place: q, circuit };
            if joinable(nodes, limit, room, first, second) {
                return Some(Hit { first, second });
            }
        }
    }
    None
}

// From where the search goes on. Where a direction has got an unlit place that had none, from the first row: a pair that was passed over
// for want of one may be joined now. Else from where it was.
fn from_where(room: Room, before: Room, limit: usize, from: usize) -> usize
    ensures { result ≡ pick (gains limit before room) 0 from }
{
    if room.gains(before, limit) { 0 } else { from }
}

// The first pair of the nonsharing circuits that can be joined now. No pair could be joined by the room there was before whose first member
// stands below `from`.
pub fn next_round(
    nodes: u8,
    limit: usize,
    channels: [Channel; PLACE_COUNT],
    before: Room,
    from: usize,
) -> Next
    requires { (0 < nodes) × (limit ≤ place_count) × PassedBy nodes limit channels before from }
    ensures { Finds nodes limit channels result }
{
    let room = room_of(channels, limit);
    let start = from_where(room, before, limit, from);
    Next {
        hit: first_joinable(nodes, limit, room, channels, start),
        room,
    }
}
