// The circuits of a table gathered into an array by rising place: all of them, or the nonsharing ones below a limit.

#![tactic(auto)]

ghost use Rattle.std.specs.Prelude.{◌≤◌};
ghost use Rattle.limits.specs.Limits.{place_count, circuit_room};
ghost use Rattle.channels.specs.Channels.{circuits};
ghost use Rattle.channels.specs.Nonsharing.{nonsharing};
ghost use Rattle.circuit_lists.specs.Gathering.{Gathers};

use channels::{Channel, Standing};
use lightpath::{BLANK_CIRCUIT, Circuit};
use limits::{CIRCUIT_ROOM, PLACE_COUNT};
use slots::Slot;

// Circuits by rising place, the first count of the list.
#[derive(Clone, Copy)]
pub struct Circuits {
    pub list: [Circuit; CIRCUIT_ROOM],
    pub count: usize,
}

// Nonsharing circuits by rising place, the first count of the list, which has room for one more than there are places.
#[derive(Clone, Copy)]
pub struct Candidates {
    pub list: [Standing; PLACE_COUNT + 1],
    pub count: usize,
}

// Every circuit of the table.
pub fn circuits_of(channels: [Channel; PLACE_COUNT]) -> Circuits
    ensures { Gathers circuit_room result.list result.count (circuits channels) }
{
    let mut list = [BLANK_CIRCUIT; CIRCUIT_ROOM];
    let mut count: usize = 0;
    for channel in &channels {
        match channel.slot {
            Slot::Unlit => {}
            Slot::Alone(a) => {
                list[count] = a;
                count += 1;
            }
            Slot::Shared(a, b) => {
                list[count] = a;
                list[count + 1] = b;
                count += 2;
            }
        }
    }
    Circuits { list, count }
}

// The nonsharing circuits of the places below a limit.
pub fn nonsharing_below(channels: [Channel; PLACE_COUNT], limit: usize) -> Candidates
    requires { limit ≤ place_count }
    ensures { Gathers place_count result.list result.count (nonsharing limit channels) }
{
    let mut list = [Standing {
        place: 0,
        circuit: BLANK_CIRCUIT,
    }; PLACE_COUNT + 1];
    let mut count: usize = 0;
    for (place, channel) in channels[..limit].iter().enumerate() {
        if let Slot::Alone(circuit) = channel.slot {
            list[count] = Standing { place, circuit };
            count += 1;
        }
    }
    Candidates { list, count }
}
