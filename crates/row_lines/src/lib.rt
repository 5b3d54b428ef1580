// What is printed of a node's row: the number of circuits that it sends, or receives, and a line for each.

#![tactic(auto)]

ghost use Rattle.std.specs.Prelude.{◌≡◌, ◌+◌, ◌≤◌, length};
ghost use Rattle.limits.specs.Limits.{most_ports};
ghost use Rattle.entries.specs.Entry.{entry_of};
ghost use Rattle.roster.specs.Roster.{entries_in, places_of};
ghost use Rattle.roster.specs.Held.{Holds};
ghost use Rattle.buffer.specs.Put.{Printed};
ghost use Rattle.row_lines.specs.Lines.{entry_line, entry_lines, first_line, row_text, from_text, entry_room, entry_lines_room, first_room, from_room};

use refusals::Refusal;
use roster::Heading;

// Which circuits a node's row lists: those from the node, or those to it.
#[derive(Clone, Copy, Debug, PartialEq, Eq)]
pub enum Listed {
    From,
    To,
}

// `circuit NUMBER to DESTINATION place PLACE`, or `circuit NUMBER from SOURCE place PLACE`, of an entry's key and rest.
fn put_entry(out: &mut [u8], at: usize, listed: Listed, key: u64, rest: u64) -> usize
    requires { at + entry_room ≤ length out.old }
    ensures { Printed entry_room out.old at (entry_line listed (entry_of key rest)) out.new result }
{
    let entry = entries::entry_of(key, rest);
    let place = entry.place as u32;
    let number = entry.circuit.number;
    let end = entry.circuit.destination as u32;
    match listed {
        Listed::From => {
            print::put_filled(out, at, b"circuit # to # place #\n", number, end, place, 0)
        }
        Listed::To => print::put_filled(
            out,
            at,
            b"circuit # from # place #\n",
            number,
            end,
            place,
            0,
        ),
    }
}

// The lines of the entries, in their order.
fn put_entries(out: &mut [u8], at: usize, listed: Listed, keys: &[u64], rests: &[u64]) -> usize
    requires { (at + entry_lines_room ≤ length out.old) × ((length keys.now ≤ most_ports) × (length rests.now ≡ length keys.now)) }
    ensures { Printed entry_lines_room out.old at (entry_lines listed (entries_in keys.now rests.now)) out.new result }
{
    let mut next = at;
    for (key, rest) in keys.iter().zip(rests) {
        next = put_entry(out, next, listed, *key, *rest);
    }
    next
}

// `from NODE circuits COUNT`, or `to NODE circuits COUNT`.
fn put_first(out: &mut [u8], at: usize, listed: Listed, node: u8, count: u32) -> usize
    requires { at + first_room ≤ length out.old }
    ensures { Printed first_room out.old at (first_line listed node count) out.new result }
{
    let node = node as u32;
    match listed {
        Listed::From => print::put_filled(out, at, b"from # circuits #\n", node, count, 0, 0),
        Listed::To => print::put_filled(out, at, b"to # circuits #\n", node, count, 0, 0),
    }
}

// The first line, and the lines of the entries of the node's row.
pub fn put_row(
    out: &mut [u8],
    at: usize,
    listed: Listed,
    node: u8,
    keys: &[u64],
    rests: &[u64],
) -> usize
    requires { (at + from_room ≤ length out.old) × ((length keys.now ≤ most_ports) × (length rests.now ≡ length keys.now)) }
    ensures { Printed from_room out.old at (row_text listed node (entries_in keys.now rests.now)) out.new result }
{
    let next = put_first(out, at, listed, node, keys.len() as u32);
    put_entries(out, next, listed, keys, rests)
}

// Answers `from NODE`, of the entries that keys and rests hold: from the node's row, or `from refused R` where the node is off the ring.
pub fn put_from(
    out: &mut [u8],
    at: usize,
    heading: Heading,
    keys: &[u64],
    rests: &[u64],
    node: u8,
) -> usize
    requires { (at + from_room ≤ length out.old) × Holds heading.nodes heading.ports (places_of keys.now rests.now heading.count) keys.now rests.now heading.count }
    ensures { Printed from_room out.old at (from_text heading.nodes (places_of keys.now rests.now heading.count) node) out.new result }
{
    if !lightpath::on_ring(heading.nodes, node) {
        return print::put_refusal(out, at, b"from refused #\n", Refusal::OffRing);
    }
    let row = rows::row_of(&keys[..heading.count as usize], node);
    put_row(
        out,
        at,
        Listed::From,
        node,
        &keys[row.start..row.end],
        &rests[row.start..row.end],
    )
}
