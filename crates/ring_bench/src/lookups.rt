// Looking up the circuits of every node over and over in a roster, and the checksum of what is found.

ghost use Rattle.std.specs.Prelude.{◌≡◌, true, length};
ghost use Rattle.ring.specs.Table.{meets_rules};
ghost use Rattle.entries.specs.Entry.{entry_of};
ghost use Rattle.roster.specs.Roster.{entries, entries_in, places_of};
ghost use Rattle.roster.specs.Held.{Holds};
ghost use Rattle.ring_bench.specs.Lookups.{with_entry, with_all, with_rows, lookups};

use limits::MOST_CIRCUITS;
use ring::RingTable;
use roster::Heading;

// The checksum with the circuit of an entry more.
fn with_entry(sum: u32, key: u64, rest: u64) -> u32
    ensures { result ≡ with_entry sum (entry_of key rest) }
{
    let entry = entries::entry_of(key, rest);
    let place = entry.place as u64;
    let circuit = entry.circuit;
    let ends = circuit.destination as u64 * 7 + place;
    ((sum as u64 * 31 + circuit.number as u64 + ends) % 4294967296) as u32
}

// The checksum with the circuits of a row more.
pub fn with_row(sum: u32, keys: &[u64], rests: &[u64]) -> u32
    requires { length rests.now ≡ length keys.now }
    ensures { result ≡ with_all sum (entries_in keys.now rests.now) }
{
    let mut last = sum;
    for (key, rest) in keys.iter().zip(rests) {
        last = with_entry(last, *key, *rest);
    }
    last
}

// The checksum with the circuits of every node more, each node's row looked up.
fn with_rows(sum: u32, heading: Heading, keys: &[u64], rests: &[u64]) -> u32
    requires { Holds heading.nodes heading.ports (places_of keys.now rests.now heading.count) keys.now rests.now heading.count }
    ensures { result ≡ with_rows (entries (places_of keys.now rests.now heading.count)) sum heading.nodes }
{
    let nodes = heading.nodes;
    let count = heading.count as usize;
    let mut last = sum;
    for node in 0..nodes {
        let row = rows::row_of(&keys[..count], node + 1);
        last = with_row(last, &keys[row.start..row.end], &rests[row.start..row.end]);
    }
    last
}

// Every node looked up so many times.
fn repeat(heading: Heading, keys: &[u64], rests: &[u64], count: u32) -> u32
    requires { Holds heading.nodes heading.ports (places_of keys.now rests.now heading.count) keys.now rests.now heading.count }
    ensures { result ≡ lookups (entries (places_of keys.now rests.now heading.count)) heading.nodes count }
{
    let mut sum: u32 = 0;
    for _ in 0..count {
        sum = with_rows(sum, heading, keys, rests);
    }
    sum
}

// Every node of a table looked up so many times, in a roster made once.
pub fn by_rows(table: RingTable, count: u32) -> u32
    requires { meets_rules table ≡ true }
    ensures { result ≡ lookups (entries table.channels) table.nodes count }
{
    let mut keys = [0u64; MOST_CIRCUITS];
    let mut rests = [0u64; MOST_CIRCUITS];
    let heading = roster::hold(&mut keys, &mut rests, table);
    repeat(heading, &keys, &rests, count)
}
