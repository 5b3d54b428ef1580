// The load report of a ring: how many lightpaths run over each link, each way, in one walk round it.

#![tactic(auto)]

mod ends;

ghost use Rattle.std.specs.Prelude.{◌≡◌, true, [], ◌++◌, ◌*◌, ◌≤◌, length, drop};
ghost use Rattle.limits.specs.Limits.{most_nodes};
ghost use Rattle.refusals.specs.Answer.{verdict_answer, answer_by};
ghost use Rattle.ring.specs.Table.{meets_rules};
ghost use Rattle.load.specs.Walk.{running, Walks, pairs_to};
ghost use Rattle.load.specs.Report.{report_of, report_reasons, buffer_after};

use ends::EndCounts;
use lightpath::{Direction, Wavelength};
use limits::{MOST_WAVELENGTHS, PORT_FIELDS};
use refusals::{Refusal, Verdict};
use ring::RingTable;

// The bytes of the longest report: two for each link.
pub const MOST_LOADS: usize = 2 * PORT_FIELDS;

// Walks round the ring from link N on and writes the running load of each link, each way, into the first bytes of a buffer that has room
// for them. At each node the lightpaths that start are added and those that stop taken off.
fn walk(nodes: u8, clockwise: &EndCounts, counterclockwise: &EndCounts, out: &mut [u8])
    requires room { (nodes ≤ most_nodes) × (2 * nodes ≤ length out.old) }
    requires clockwise { Walks nodes clockwise.now.starts clockwise.now.stops clockwise.now.last }
    requires counterclockwise { Walks nodes counterclockwise.now.starts counterclockwise.now.stops counterclockwise.now.last }
    ensures { out.new ≡ pairs_to nodes (running clockwise.now.starts clockwise.now.stops clockwise.now.last) (running counterclockwise.now.starts counterclockwise.now.stops counterclockwise.now.last) ++ drop (2 * nodes) out.old }
{
    let mut load = clockwise.last;
    let mut other = counterclockwise.last;
    for link in 0..usize::from(nodes) {
        let node = link + 1;
        load = load + clockwise.starts[node] - clockwise.stops[node];
        other = other + counterclockwise.starts[node] - counterclockwise.stops[node];
        out[2 * link] = load;
        out[2 * link + 1] = other;
    }
}

// The load report of a table that is known to meet the ring rules.
pub fn report_valid(table: RingTable, out: &mut [u8]) -> Verdict
    requires { meets_rules table ≡ true }
    ensures answer { result ≡ report_of table (length out.old) }
    ensures buffer { out.new ≡ buffer_after table out.old }
    ensures numbers { verdict_answer result ≡ answer_by (report_reasons table (length out.old)) [] }
{
    if out.len() < 2 * usize::from(table.nodes) {
        return Err(Refusal::ShortBuffer);
    }
    let mut clockwise = EndCounts::none();
    let mut counterclockwise = EndCounts::none();
    let mut last: u8 = 0;
    let mut counter_last: u8 = 0;
    for w in 0..MOST_WAVELENGTHS {
        let wavelength = Wavelength(w);
        last += clockwise.count_wavelength(&table, wavelength, Direction::Clockwise);
        counter_last += counterclockwise.count_wavelength(
            &table,
            wavelength,
            Direction::Counterclockwise,
        );
    }
    clockwise.last = last;
    counterclockwise.last = counter_last;
    walk(table.nodes, &clockwise, &counterclockwise, out);
    Ok(())
}

// The load report: for link 1 to N the number of lightpaths clockwise and then counterclockwise, one byte each.
pub fn report(table: RingTable, out: &mut [u8]) -> Verdict
    ensures answer { result ≡ report_of table (length out.old) }
    ensures buffer { out.new ≡ buffer_after table out.old }
    ensures numbers { verdict_answer result ≡ answer_by (report_reasons table (length out.old)) [] }
{
    if !table.meets_rules() {
        return Err(Refusal::BrokenRule);
    }
    report_valid(table, out)
}
