// The ring rules of document 01 as one test, over the pieces of a ring table: its nodes, its port counts and its places.

#![tactic(auto)]

mod numbers;
mod places;
mod tallies;

ghost use Rattle.std.specs.Prelude.{◌≡◌, ◌&&◌};
ghost use Rattle.basis.specs.Count.{distinct};
ghost use Rattle.channels.specs.Channels.{circuits};
ghost use Rattle.rules.specs.Rules.{ports_hold, ring_rules};

use channels::Channel;
use limits::{PLACE_COUNT, PORT_FIELDS};

// Whether no two circuits of the table have one number, and no node sends or receives more of them than it has ports.
fn circuits_hold(ports: [u8; PORT_FIELDS], channels: [Channel; PLACE_COUNT]) -> bool
    ensures { result ≡ (distinct (λ c. c.number) (circuits channels) && ports_hold 1 ports (circuits channels)) }
{
    let circuits = circuit_lists::circuits_of(channels);
    let all = &circuits.list[..circuits.count];
    numbers::numbers_distinct(all) && tallies::ports_hold(ports, all)
}

// Whether the pieces of a table meet the ring rules.
pub fn ring_rules(nodes: u8, ports: [u8; PORT_FIELDS], channels: [Channel; PLACE_COUNT]) -> bool
    ensures { result ≡ ring_rules nodes ports channels }
{
    ports::limits_hold(nodes, ports)
        && places::unlit_from(ports::place_limit(ports), channels)
        && places::places_hold(nodes, channels)
        && circuits_hold(ports, channels)
        && ports::spare_zero(nodes, ports)
}
