// Ports in use: how many circuits each node sends and receives, counted in arrays.

ghost use Rattle.std.specs.Prelude.{◌≡◌, ◌&&◌, ◌≤◌, leb, length};
ghost use Rattle.limits.specs.Limits.{circuit_room};
ghost use Rattle.rules.specs.Rules.{ports_hold};
ghost use Rattle.rules.specs.Tallies.{Tallied, enough};

use lightpath::Circuit;
use limits::PORT_FIELDS;

// A node that is on no ring is counted too: there is a count for each value of a byte.
const BYTE_VALUES: usize = 256;

// How many circuits each node sends and receives.
#[derive(Clone, Copy)]
struct PortCounts {
    sent: [u16; BYTE_VALUES],
    received: [u16; BYTE_VALUES],
}

// How many of the circuits each node sends and receives.
fn port_counts(circuits: &[Circuit]) -> PortCounts
    requires { length circuits.now ≤ circuit_room }
    ensures { Tallied (λ c. c.source) circuits.now (length circuits.now) result.sent × Tallied (λ c. c.destination) circuits.now (length circuits.now) result.received }
{
    let mut sent = [0u16; BYTE_VALUES];
    let mut received = [0u16; BYTE_VALUES];
    for &Circuit {
        source,
        destination,
        ..
    } in circuits {
        sent[usize::from(source)] += 1;
        received[usize::from(destination)] += 1;
    }
    PortCounts { sent, received }
}

// Whether a node's port count is enough for what it sends and for what it receives.
fn count_enough(ports: u8, sent: u16, received: u16) -> bool
    ensures { result ≡ (leb sent ports && leb received ports) }
{
    let ports = u16::from(ports);
    sent <= ports && received <= ports
}

impl PortCounts {
    // Whether each node has ports enough for what it sends and for what it receives.
    fn enough(&self, ports: [u8; PORT_FIELDS]) -> bool
        ensures { result ≡ enough ports self.now.sent self.now.received }
    {
        for (i, count) in ports.iter().enumerate() {
            if !count_enough(*count, self.sent[i + 1], self.received[i + 1]) {
                return false;
            }
        }
        true
    }
}

// Whether no node sends or receives more of the circuits than it has ports.
pub fn ports_hold(ports: [u8; PORT_FIELDS], circuits: &[Circuit]) -> bool
    requires { length circuits.now ≤ circuit_room }
    ensures { result ≡ ports_hold 1 ports circuits.now }
{
    port_counts(circuits).enough(ports)
}
