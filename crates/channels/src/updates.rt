// Up to three changes of places by value, and the places after them; and the places after a closing.

ghost use Rattle.std.specs.Prelude.{◌≡◌, ◌<◌};
ghost use Rattle.limits.specs.Limits.{place_count};
ghost use Rattle.channels.specs.Channels.{where_is};
ghost use Rattle.channels.specs.Closing.{closed};
ghost use Rattle.channels.specs.Change.{puts};
ghost use Rattle.channels.specs.Changes.{in_order, Placed, one_change, two_changes, three_changes};

use crate::{Change, Changes, Channel};
use limits::PLACE_COUNT;

impl Changes {
    // One change.
    pub fn one(a: Change) -> Changes
        ensures { result ≡ one_change a }
    {
        Changes::three(a, a, a)
    }

    // Two changes, in their order.
    pub fn two(a: Change, b: Change) -> Changes
        ensures { result ≡ two_changes a b }
    {
        Changes::three(a, b, b)
    }

    // Three changes, in their order.
    pub fn three(a: Change, b: Change, c: Change) -> Changes
        ensures { result ≡ three_changes a b c }
    {
        Changes {
            first: a,
            second: b,
            third: c,
        }
    }
}

// The places after the changes.
pub fn changed(channels: [Channel; PLACE_COUNT], changes: Changes) -> [Channel; PLACE_COUNT]
    requires { Placed changes }
    ensures { result ≡ puts (in_order changes) channels }
{
    let mut after = channels;
    after[changes.first.place].slot = changes.first.slot;
    after[changes.second.place].slot = changes.second.slot;
    after[changes.third.place].slot = changes.third.slot;
    after
}

// The places without the circuit of a number, which stands at a place; none moves.
pub fn without_circuit(
    channels: [Channel; PLACE_COUNT],
    number: u32,
    place: usize,
) -> [Channel; PLACE_COUNT]
    requires { (place ≡ where_is channels number) × (place < place_count) }
    ensures { result ≡ closed channels number }
{
    let mut after = channels;
    after[place].slot = after[place].slot.without(number);
    after
}
