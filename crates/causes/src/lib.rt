// What a ring and a request are refused for: the numbers of nodes and ports, the nodes that a request names, and what is in use.

#![tactic(auto)]

ghost use Rattle.std.specs.Prelude.{◌≡◌, ◌&&◌, not, [], ◌∷◌, ◌++◌, ◌-◌, ◌≤◌, eqb, leb, ltb, length, replicate};
ghost use Rattle.limits.specs.Limits.{least_nodes, most_nodes, port_fields, least_records};
ghost use Rattle.lightpath.specs.Circuit.{on_ring};
ghost use Rattle.ports.specs.Ports.{ports_at};
ghost use Rattle.refusals.specs.Refusal.{◌if◌, judged};
ghost use Rattle.refusals.specs.declared.Refusal.TheVariants.{ShortList, NumberLive, NoTransmitter, NoReceiver};
ghost use Rattle.causes.specs.Causes.{port_causes, named_causes};

use lightpath::Circuit;
use limits::{LEAST_NODES, LEAST_RECORDS, MOST_NODES, MOST_TOTAL, PORT_FIELDS};
use refusals::{Refusal, Verdict};
use survey::Survey;

// The port counts of a list of at most 64, and zeros beyond.
pub fn port_fields(ports: &[u8]) -> [u8; PORT_FIELDS]
    requires { length ports.now ≤ port_fields }
    ensures { result ≡ ports.now ++ replicate (port_fields - length ports.now) 0 }
{
    let mut fields = [0u8; PORT_FIELDS];
    fields[..ports.len()].copy_from_slice(ports);
    fields
}

// Whether the number of nodes is from 3 to 64, and the list of port counts that long.
pub fn node_count_holds(nodes: u8, ports: &[u8]) -> bool
    ensures { result ≡ (leb least_nodes nodes && leb nodes most_nodes && eqb (length ports.now) nodes) }
{
    (LEAST_NODES..=MOST_NODES).contains(&nodes) && ports.len() == usize::from(nodes)
}

// Why the port counts are refused, if they are.
pub fn ports_verdict(fields: [u8; PORT_FIELDS]) -> Verdict
    ensures { result ≡ judged (port_causes fields) }
{
    if !ports::counts_hold(fields) {
        return Err(Refusal::PortCount);
    }
    if MOST_TOTAL < ports::port_total(fields) {
        return Err(Refusal::PortSum);
    }
    Ok(())
}

// Whether an end of the circuit is not on the ring.
fn off_ring(nodes: u8, circuit: Circuit) -> bool
    ensures { result ≡ not (on_ring nodes circuit.source && on_ring nodes circuit.destination) }
{
    !lightpath::on_ring(nodes, circuit.source) || !lightpath::on_ring(nodes, circuit.destination)
}

// What is refused by the nodes that a request names: one off the ring, one node twice.
pub fn nodes_verdict(nodes: u8, circuit: Circuit) -> Verdict
    ensures { result ≡ judged (named_causes nodes circuit) }
{
    if off_ring(nodes, circuit) {
        return Err(Refusal::OffRing);
    }
    if circuit.source == circuit.destination {
        return Err(Refusal::SameNode);
    }
    Ok(())
}

// What an opening is refused for before the places are looked at: a short list, then the nodes that it names.
pub fn named_verdict(nodes: u8, circuit: Circuit, lent: usize) -> Verdict
    ensures { result ≡ judged ((ShortList if ltb lent least_records) ∷ named_causes nodes circuit) }
{
    if lent < LEAST_RECORDS {
        return Err(Refusal::ShortList);
    }
    nodes_verdict(nodes, circuit)
}

// What is refused by what was seen of the places: a number that is live, an end with no free port.
pub fn used_verdict(ports: [u8; PORT_FIELDS], circuit: Circuit, seen: Survey) -> Verdict
    ensures { result ≡ judged (
        (NumberLive if ltb 0 seen.numbered)
        ∷ (NoTransmitter if not (ltb seen.sent (ports_at ports circuit.source)))
        ∷ (NoReceiver if not (ltb seen.received (ports_at ports circuit.destination)))
        ∷ []
        ) }
{
    if 0 < seen.numbered {
        return Err(Refusal::NumberLive);
    }
    if !ports::port_free(ports, circuit.source, seen.sent) {
        return Err(Refusal::NoTransmitter);
    }
    if !ports::port_free(ports, circuit.destination, seen.received) {
        return Err(Refusal::NoReceiver);
    }
    Ok(())
}
