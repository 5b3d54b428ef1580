// What is printed of the nodes of a ring: the circuits to one of them, and of each its ports and how many circuits it sends and receives.

#![tactic(auto)]

ghost use Rattle.std.specs.Prelude.{◌≡◌, true, ◌+◌, ◌≤◌, length};
ghost use Rattle.ring.specs.Table.{meets_rules};
ghost use Rattle.buffer.specs.Put.{Printed};
ghost use Rattle.row_lines.specs.Lines.{from_room};
ghost use Rattle.node_lines.specs.Lines.{exchanged, to_text, node_line, node_lines, nodes_text, node_room, node_lines_room, nodes_room};
ghost use Rattle.node_lines.specs.Arrivals.{arrival_of, arrivals_at, arrivals_in};

use channels::Channel;
use lightpath::Circuit;
use limits::{MOST_CIRCUITS, PLACE_COUNT};
use refusals::Refusal;
use ring::RingTable;
use row_lines::Listed;
use row_numbers::End;
use slots::Slot;

// A circuit with its ends exchanged.
fn exchange(circuit: Circuit) -> Circuit
    ensures { result ≡ exchanged circuit }
{
    Circuit {
        number: circuit.number,
        source: circuit.destination,
        destination: circuit.source,
        remark: circuit.remark,
        account: circuit.account,
    }
}

// A circuit alone, if it is to the node, with its ends exchanged.
fn arrival(circuit: Circuit, node: u8) -> Slot
    ensures { result ≡ arrival_of node circuit }
{
    if circuit.destination == node {
        Slot::Alone(exchange(circuit))
    } else {
        Slot::Unlit
    }
}

// The circuits of a place to a node, with their ends exchanged.
fn arrivals_at(slot: Slot, node: u8) -> Slot
    ensures { result ≡ arrivals_at node slot }
{
    match slot {
        Slot::Unlit => Slot::Unlit,
        Slot::Alone(a) => arrival(a, node),
        Slot::Shared(a, b) => {
            if a.destination != node {
                return arrival(b, node);
            }
            if b.destination != node {
                return arrival(a, node);
            }
            Slot::Shared(exchange(a), exchange(b))
        }
    }
}

// The circuits of all places to a node, with their ends exchanged.
fn arrivals(channels: [Channel; PLACE_COUNT], node: u8) -> [Channel; PLACE_COUNT]
    ensures { result ≡ arrivals_in node channels }
{
    let mut left = channels;
    for (place, channel) in channels.iter().enumerate() {
        left[place] = Channel {
            slot: arrivals_at(channel.slot, node),
        };
    }
    left
}

// Answers `to NODE`: `to NODE circuits COUNT` and a line for each by rising number, or `to refused R` where the node is off the ring.
pub fn put_to(out: &mut [u8], at: usize, table: RingTable, node: u8) -> usize
    requires { (at + from_room ≤ length out.old) × (meets_rules table ≡ true) }
    ensures { Printed from_room out.old at (to_text table.nodes table.channels node) out.new result }
{
    if !lightpath::on_ring(table.nodes, node) {
        return print::put_refusal(out, at, b"to refused #\n", Refusal::OffRing);
    }
    let mut keys = [0u64; MOST_CIRCUITS];
    let mut rests = [0u64; MOST_CIRCUITS];
    let count = roster::file_all(&mut keys, &mut rests, arrivals(table.channels, node));
    row_lines::put_row(out, at, Listed::To, node, &keys[..count], &rests[..count])
}

// `node I ports K sends S receives R`.
fn put_node(out: &mut [u8], at: usize, table: RingTable, node: u8) -> usize
    requires { (at + node_room ≤ length out.old) × (meets_rules table ≡ true) }
    ensures { Printed node_room out.old at (node_line table.ports table.channels node) out.new result }
{
    let all = ports::ports_of(table.ports, node);
    let sends = row_numbers::used(table.channels, End::Source, node);
    let receives = row_numbers::used(table.channels, End::Destination, node);
    print::put_filled(
        out,
        at,
        b"node # ports # sends # receives #\n",
        node as u32,
        all as u32,
        sends as u32,
        receives as u32,
    )
}

// The lines of all nodes.
fn put_node_lines(out: &mut [u8], at: usize, table: RingTable) -> usize
    requires { (at + node_lines_room ≤ length out.old) × (meets_rules table ≡ true) }
    ensures { Printed node_lines_room out.old at (node_lines table.ports table.channels table.nodes 1) out.new result }
{
    let mut next = at;
    for node in 1..=table.nodes {
        next = put_node(out, next, table, node);
    }
    next
}

// Answers `nodes`: `nodes N`, and a line for each node of the ring.
pub fn put_nodes(out: &mut [u8], at: usize, table: RingTable) -> usize
    requires { (at + nodes_room ≤ length out.old) × (meets_rules table ≡ true) }
    ensures { Printed nodes_room out.old at (nodes_text table.nodes table.ports table.channels) out.new result }
{
    let next = print::put_filled(out, at, b"nodes #\n", table.nodes as u32, 0, 0, 0);
    put_node_lines(out, next, table)
}
