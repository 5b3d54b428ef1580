// The unlit places that a round can use.

ghost use Rattle.std.specs.Prelude.{◌≡◌, ◌&&◌, ◌<◌, ◌≤◌, leb, ltb};
ghost use Rattle.limits.specs.Limits.{place_count};
ghost use Rattle.lightpath.specs.Place.{direction_of, same_direction};
ghost use Rattle.slots.specs.Slot.{is_unlit};
ghost use Rattle.steps.specs.Steps.{lowest_in};
ghost use Rattle.rounds.specs.Room.{room_of, lowest_of, gains};

use crate::Room;
use channels::Channel;
use lightpath::{Direction, Place};
use limits::PLACE_COUNT;
use slots::Slot;

// Whether a place is unlit and of a direction.
fn unlit_in(slot: Slot, place: usize, direction: Direction) -> bool
    requires { place < place_count }
    ensures { result ≡ (is_unlit slot && same_direction (direction_of place) direction) }
{
    slot.is_unlit() && Place(place as u8).direction() == direction
}

// The lowest unlit place of a direction below a limit, or the limit.
fn lowest_unlit(channels: [Channel; PLACE_COUNT], limit: usize, direction: Direction) -> usize
    requires { limit ≤ place_count }
    ensures { result ≡ lowest_in is_unlit limit channels direction }
{
    for (place, channel) in channels[..limit].iter().enumerate() {
        if unlit_in(channel.slot, place, direction) {
            return place;
        }
    }
    limit
}

// The room below a limit.
pub fn room_of(channels: [Channel; PLACE_COUNT], limit: usize) -> Room
    requires { limit ≤ place_count }
    ensures { result ≡ room_of limit channels }
{
    Room {
        clockwise: lowest_unlit(channels, limit, Direction::Clockwise),
        counterclockwise: lowest_unlit(channels, limit, Direction::Counterclockwise),
    }
}

// Whether a number has come below a limit.
fn comes_below(before: usize, now: usize, limit: usize) -> bool
    ensures { result ≡ (leb limit before && ltb now limit) }
{
    limit <= before && now < limit
}

impl Room {
    // The lowest unlit place of a direction.
    pub fn lowest(self, direction: Direction) -> usize
        ensures { result ≡ lowest_of self direction }
    {
        match direction {
            Direction::Clockwise => self.clockwise,
            Direction::Counterclockwise => self.counterclockwise,
        }
    }

    // Whether a direction has an unlit place now that had none before.
    pub fn gains(self, before: Room, limit: usize) -> bool
        ensures { result ≡ gains limit before self }
    {
        comes_below(before.clockwise, self.clockwise, limit)
            || comes_below(before.counterclockwise, self.counterclockwise, limit)
    }
}
