// Searches over all places: where a circuit stands, and which places are lit.

ghost use Rattle.std.specs.Prelude.{◌≡◌, ◌<◌, ◌≤◌, MatchOption};
ghost use Rattle.limits.specs.Limits.{place_count};
ghost use Rattle.channels.specs.Channels.{where_is, lit_of};

use crate::Channel;
use limits::PLACE_COUNT;
use lit_words::Lit;

// The place of the circuit with a number, if one has it.
pub fn where_is(channels: [Channel; PLACE_COUNT], number: u32) -> Option<usize>
    ensures { MatchOption result (place_count ≤ where_is channels number) (λ p. (p ≡ where_is channels number) × (p < place_count)) }
{
    channels
        .iter()
        .position(|channel| channel.slot.holds(number))
}

// The words of a table, made from its highest place down.
pub fn lit_of(channels: [Channel; PLACE_COUNT]) -> Lit
    ensures { result ≡ lit_of channels }
{
    let mut lit = Lit { low: 0, high: 0 };
    for place in (0..PLACE_COUNT).rev() {
        if channels[place].slot.is_lit() {
            lit = lit.with(place);
        }
    }
    lit
}
