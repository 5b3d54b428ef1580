// A table in lent lists: its entries put there, and the table that they are of.

ghost use Rattle.std.specs.Prelude.{◌≡◌, true, [], ◌≤◌, length};
ghost use Rattle.limits.specs.Limits.{most_circuits};
ghost use Rattle.ring.specs.Table.{meets_rules};
ghost use Rattle.roster.specs.Held.{table_in, HoldsTable};
ghost use Rattle.roster.specs.Listed.{Lists};

use crate::Heading;
use crate::lists::{file_all, places_of};
use ring::RingTable;

// Puts the entries of a table into lists that have none.
pub(crate) fn hold_first(keys: &mut [u64], rests: &mut [u64], table: RingTable) -> Heading
    requires { (meets_rules table ≡ true) × Lists [] keys.old rests.old 0 }
    ensures { HoldsTable table result keys.new rests.new }
{
    let count = file_all(keys, rests, table.channels);
    let ports = table.ports;
    Heading {
        ports,
        nodes: table.nodes,
        count: count as u8,
    }
}

// Puts the entries of a table into lent lists, whatever they held.
pub fn hold(keys: &mut [u64], rests: &mut [u64], table: RingTable) -> Heading
    requires { (meets_rules table ≡ true) × (length keys.old ≡ most_circuits) × (length rests.old ≡ most_circuits) }
    ensures { HoldsTable table result keys.new rests.new }
{
    keys.fill(0);
    rests.fill(0);
    hold_first(keys, rests, table)
}

// The table that lent lists are of.
pub fn table_in(heading: Heading, keys: &[u64], rests: &[u64]) -> RingTable
    requires { (heading.count ≤ length keys.now) × (heading.count ≤ length rests.now) }
    ensures { result ≡ table_in heading keys.now rests.now }
{
    let channels = places_of(keys, rests, usize::from(heading.count));
    let ports = heading.ports;
    RingTable {
        channels,
        ports,
        nodes: heading.nodes,
    }
}
