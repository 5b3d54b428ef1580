// The numbers of the picture's rows: for each link or node the one that stands in its column.

#![tactic(auto)]

ghost use Rattle.std.specs.Prelude.{◌≡◌, true, ◌-◌, ◌*◌, ◌/◌, ◌%◌, ◌≤◌, length};
ghost use Rattle.basis.specs.Count.{tally};
ghost use Rattle.lightpath.specs.Circuit.{next};
ghost use Rattle.slots.specs.Slot.{held};
ghost use Rattle.channels.specs.Channels.{circuits};
ghost use Rattle.ports.specs.Ports.{ports_at};
ghost use Rattle.ring.specs.Table.{meets_rules};
ghost use Rattle.link_question.specs.Link.{link_of};
ghost use Rattle.row_numbers.specs.Numbers.{node_at, number_at, Numbered};
ghost use Rattle.row_numbers.specs.Loaded.{load_at, Loaded};

use channels::Channel;
use lightpath::Direction;
use limits::{PLACE_COUNT, PORT_FIELDS};
use load::MOST_LOADS;
use ring::RingTable;
use slots::Slot;

// What a row shows, in the picture's order: the nodes at which the links begin, and those at which they end, clockwise; what runs at a
// place; the loads each way round; the nodes, their free transmitters and their free receivers.
#[derive(Clone, Copy, Debug, PartialEq, Eq)]
pub enum Row {
    From,
    To,
    Place(usize),
    Clockwise,
    Counterclockwise,
    Nodes,
    Senders,
    Receivers,
}

// An end of a circuit: its source, which takes a transmitter, or its destination, which takes a receiver.
#[derive(Clone, Copy, Debug, PartialEq, Eq)]
pub enum End {
    Source,
    Destination,
}

// The next node clockwise.
fn next_node(nodes: u8, node: u8) -> u8
    ensures { result ≡ next nodes node }
{
    if node < nodes { node + 1 } else { 1 }
}

// How many circuits at a place have a node at an end.
fn used_at(slot: Slot, end: End, node: u8) -> usize
    ensures { (result ≡ tally (node_at end) node (held slot)) × (result ≤ 2) }
{
    match end {
        End::Source => ports_used::sent_at(slot, node),
        End::Destination => ports_used::received_at(slot, node),
    }
}

// How many circuits have a node at an end.
pub fn used(channels: [Channel; PLACE_COUNT], end: End, node: u8) -> usize
    ensures { result ≡ tally (node_at end) node (circuits channels) }
{
    channels
        .iter()
        .map(|channel| used_at(channel.slot, end, node))
        .sum()
}

// How many of a node's transmitters or receivers are free.
fn free(table: RingTable, end: End, node: u8) -> u64
    ensures { result ≡ ports_at table.ports node - tally (node_at end) node (circuits table.channels) }
{
    let all = ports::ports_of(table.ports, node) as usize;
    all.saturating_sub(used(table.channels, end, node)) as u64
}

// The load of a link in a direction, out of the bytes of a load report.
fn load_at(loads: &[u8], direction: Direction, link: u8) -> u8
    requires { (1 ≤ link) × (2 * link ≤ length loads.now) }
    ensures { result ≡ load_at loads.now direction link }
{
    let at = 2 * (link as usize - 1);
    match direction {
        Direction::Clockwise => loads[at],
        Direction::Counterclockwise => loads[at + 1],
    }
}

// What runs at a place on a link.
fn running(table: RingTable, place: usize, link: u8) -> u64
    requires { meets_rules table ≡ true }
    ensures { result ≡ link_of table link (place / 2) (place % 2) }
{
    link_question::link_of(table, link as u64, (place / 2) as u64, (place % 2) as u64)
}

// The number of a row at a link or a node; of a row that is a place one may stand for no circuit, as in the one-link question.
fn number_at(table: RingTable, loads: &[u8], row: Row, i: u8) -> u64
    requires { (meets_rules table ≡ true) × Loaded table loads.now × (1 ≤ i) × (i ≤ table.nodes) }
    ensures { result ≡ number_at table row i }
{
    match row {
        Row::From => i as u64,
        Row::To => next_node(table.nodes, i) as u64,
        Row::Place(place) => running(table, place, i),
        Row::Clockwise => load_at(loads, Direction::Clockwise, i) as u64,
        Row::Counterclockwise => load_at(loads, Direction::Counterclockwise, i) as u64,
        Row::Nodes => i as u64,
        Row::Senders => free(table, End::Source, i),
        Row::Receivers => free(table, End::Destination, i),
    }
}

// The numbers of a row: for each link or node, from the first on.
pub fn numbers_of(table: RingTable, row: Row) -> [u64; PORT_FIELDS]
    requires { meets_rules table ≡ true }
    ensures { Numbered table row table.nodes result }
{
    let mut loads = [0u8; MOST_LOADS];
    let _ = load::report_valid(table, &mut loads);
    let mut numbers = [0u64; PORT_FIELDS];
    for i in 0..table.nodes {
        numbers[i as usize] = number_at(table, &loads, row, i + 1);
    }
    numbers
}
