// The ring rules of each place by itself.

ghost use Rattle.std.specs.Prelude.{◌≡◌, ◌<◌, drop};
ghost use Rattle.std.specs.List.{list_all};
ghost use Rattle.limits.specs.Limits.{place_count};
ghost use Rattle.slots.specs.Slot.{is_unlit};
ghost use Rattle.slots.specs.declared.Slot.TheVariants.{Shared as shared};
ghost use Rattle.rules.specs.Rules.{unlit_from, fits};
ghost use Rattle.rules.specs.EachPlace.{places_hold};

use channels::Channel;
use lightpath::{Circuit, Place};
use limits::PLACE_COUNT;
use slots::Slot;

// Whether no place of those from a limit up is lit, of however many.
fn none_lit(limit: usize, channels: &[Channel]) -> bool
    ensures { result ≡ list_all (λ ch. is_unlit ch.slot) (drop limit channels.now) }
{
    channels
        .iter()
        .skip(limit)
        .all(|channel| channel.slot.is_unlit())
}

// Whether no place from a limit up is lit.
pub fn unlit_from(limit: usize, channels: [Channel; PLACE_COUNT]) -> bool
    ensures { result ≡ unlit_from limit channels }
{
    none_lit(limit, &channels)
}

// Whether two circuits may stand at a place: both have ends on the ring and different, the lower number is first, and they can share in
// the place's direction.
fn pair_fits(nodes: u8, place: usize, a: Circuit, b: Circuit) -> bool
    requires { (0 < nodes) × (place < place_count) }
    ensures { result ≡ fits nodes place (shared a b) }
{
    a.joins(nodes)
        && b.joins(nodes)
        && a.number < b.number
        && a.can_share(b, nodes, Place(place as u8).direction())
}

// Whether what a place holds is on the ring and may stand there.
fn slot_fits(nodes: u8, place: usize, slot: Slot) -> bool
    requires { (0 < nodes) × (place < place_count) }
    ensures { result ≡ fits nodes place slot }
{
    match slot {
        Slot::Unlit => true,
        Slot::Alone(a) => a.joins(nodes),
        Slot::Shared(a, b) => pair_fits(nodes, place, a, b),
    }
}

// Whether what every place holds is on the ring and may stand there.
pub fn places_hold(nodes: u8, channels: [Channel; PLACE_COUNT]) -> bool
    requires { 0 < nodes }
    ensures { result ≡ places_hold nodes channels }
{
    for (place, channel) in channels.iter().enumerate() {
        if !slot_fits(nodes, place, channel.slot) {
            return false;
        }
    }
    true
}
