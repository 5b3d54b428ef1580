// Port counts: their sum, the wavelengths that they ask for, the ring rules on them, and whether a node has a free port.

#![tactic(auto)]

ghost use Rattle.std.specs.Prelude.{◌≡◌, ◌≤◌, leb, ltb, length};
ghost use Rattle.basis.specs.Count.{total};
ghost use Rattle.limits.specs.Limits.{most_nodes, port_fields, most_ports};
ghost use Rattle.ports.specs.Ports.{most_sum, wavelengths, limit_of, each_at_most, ports_at, limits, spare_zero};

use limits::{LEAST_NODES, MOST_NODES, MOST_PORTS, MOST_TOTAL, PORT_FIELDS};

// The sum of some port counts.
fn sum_of(counts: &[u8]) -> u16
    requires { length counts.now ≤ port_fields }
    ensures { (result ≡ total counts.now) × (result ≤ most_sum) }
{
    counts.iter().map(|count| u16::from(*count)).sum()
}

// The sum of all port counts.
pub fn port_total(ports: [u8; PORT_FIELDS]) -> u16
    ensures { (result ≡ total ports) × (result ≤ most_sum) }
{
    sum_of(&ports)
}

// A third of all port pairs, rounded up: the wavelengths each way.
pub fn wavelengths(ports: [u8; PORT_FIELDS]) -> u16
    ensures { result ≡ wavelengths ports }
{
    port_total(ports).div_ceil(3)
}

// The number of places that may be lit: the wavelengths of both directions.
pub fn place_limit(ports: [u8; PORT_FIELDS]) -> usize
    ensures { result ≡ limit_of ports }
{
    2 * usize::from(wavelengths(ports))
}

// Whether every port count is within its limit.
pub fn counts_hold(ports: [u8; PORT_FIELDS]) -> bool
    ensures { result ≡ each_at_most most_ports ports }
{
    ports.iter().all(|count| *count <= MOST_PORTS)
}

// Whether the number of nodes and the port counts are within document 01's limits.
pub fn limits_hold(nodes: u8, ports: [u8; PORT_FIELDS]) -> bool
    ensures { result ≡ limits nodes ports }
{
    (LEAST_NODES..=MOST_NODES).contains(&nodes)
        && counts_hold(ports)
        && port_total(ports) <= MOST_TOTAL
}

// Whether the port counts beyond the last node are zero.
pub fn spare_zero(nodes: u8, ports: [u8; PORT_FIELDS]) -> bool
    requires { nodes ≤ most_nodes }
    ensures { result ≡ spare_zero nodes ports }
{
    ports[usize::from(nodes)..].iter().all(|count| *count == 0)
}

// The ports of a node; none at a node that there is not.
pub fn ports_of(ports: [u8; PORT_FIELDS], node: u8) -> u8
    ensures { result ≡ ports_at ports node }
{
    match usize::from(node) {
        i @ 1..=PORT_FIELDS => ports[i - 1],
        _ => 0,
    }
}

// Whether a node that uses so many transmitters, or receivers, has another.
pub fn port_free(ports: [u8; PORT_FIELDS], node: u8, used: usize) -> bool
    ensures { result ≡ ltb used (ports_at ports node) }
{
    used < usize::from(ports_of(ports, node))
}
