// What stands at the 128 directed wavelength places of a ring, and changes of it.

#![tactic(auto)]

ghost use Rattle.std.specs.Prelude.{◌≡◌};
ghost use Rattle.channels.specs.Channels.{unlit_channels, at};

use lightpath::Circuit;
use limits::PLACE_COUNT;
use slots::Slot;

mod search;
mod updates;

pub use search::{lit_of, where_is};
pub use updates::{changed, without_circuit};

// A place of the table: what it holds.
#[derive(Clone, Copy, Debug, PartialEq, Eq)]
pub struct Channel {
    pub slot: Slot,
}

// A place and the content that it gets.
#[derive(Clone, Copy, Debug, PartialEq, Eq)]
pub struct Change {
    pub place: usize,
    pub slot: Slot,
}

// Three changes, one after the other. Fewer are three of which the last is said again.
#[derive(Clone, Copy, Debug, PartialEq, Eq)]
pub struct Changes {
    pub first: Change,
    pub second: Change,
    pub third: Change,
}

// A circuit and the place at which it stands.
#[derive(Clone, Copy, Debug, PartialEq, Eq)]
pub struct Standing {
    pub place: usize,
    pub circuit: Circuit,
}

// 128 blank places.
pub fn unlit_channels() -> [Channel; PLACE_COUNT]
    ensures { result ≡ unlit_channels }
{
    [Channel { slot: Slot::Unlit }; PLACE_COUNT]
}

// The content of a place; a place that there is not is unlit.
pub fn slot_at(channels: [Channel; PLACE_COUNT], place: usize) -> Slot
    ensures { result ≡ at channels place }
{
    channels
        .get(place)
        .map_or(Slot::Unlit, |channel| channel.slot)
}
