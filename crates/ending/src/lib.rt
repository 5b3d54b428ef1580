// Which circuit would have to end so that a request can be served. A look changes nothing: the table goes in whole, and no list is lent.

#![tactic(auto)]

ghost use Rattle.std.specs.Prelude.{◌≡◌, true, fold, None, reverse, Ok};
ghost use Rattle.slots.specs.Slot.{held};
ghost use Rattle.channels.specs.Channels.{circuits};
ghost use Rattle.refusals.specs.Refusal.{judged};
ghost use Rattle.refusals.specs.Answer.{answer_by};
ghost use Rattle.causes.specs.Causes.{named_causes};
ghost use Rattle.ring.specs.Table.{meets_rules};
ghost use Rattle.ring.specs.Opening.{used_causes};
ghost use Rattle.ending.specs.Ending.{requested, ending_of};
ghost use Rattle.ending.specs.Answer.{ending_answer, end_reasons, end_values};
ghost use Rattle.ending.specs.Search.{helps_by, none_found, lower_of, with_one, with_all, who_is, ending_by};

use channels::Channel;
use lightpath::Circuit;
use limits::PLACE_COUNT;
use refusals::Refusal;
use ring::RingTable;
use slots::Slot;

// The circuit that would have to end; that nobody's end helps; that the request would be served; or why it is refused but for a port.
#[derive(Clone, Copy)]
pub enum Ending {
    Circuit(u32),
    Nobody,
    Served,
    Refused(Refusal),
}

// A request, and whether a transmitter of its source and a receiver of its destination are free.
#[derive(Clone, Copy)]
struct Wanted {
    request: Circuit,
    sender: bool,
    receiver: bool,
}

// The lower of a number and the one found, where there is one.
fn lower(number: u32, lowest: Option<u32>) -> Option<u32>
    ensures { result ≡ lower_of number lowest }
{
    match lowest {
        None => Some(number),
        Some(found) => Some(found.min(number)),
    }
}

impl Wanted {
    // Whether a circuit gives up the ports that the request lacks: a port is free, or the circuit's end is at the node that is asked for.
    fn helped_by(self, circuit: Circuit) -> bool
        ensures { result ≡ helps_by self.sender self.receiver self.request circuit }
    {
        (self.sender || circuit.source == self.request.source)
            && (self.receiver || circuit.destination == self.request.destination)
    }

    // The lowest number of the circuits that help, with a circuit more.
    fn with_circuit(self, circuit: Circuit, lowest: Option<u32>) -> Option<u32>
        ensures { result ≡ with_one (helps_by self.sender self.receiver self.request) circuit lowest }
    {
        if self.helped_by(circuit) {
            lower(circuit.number, lowest)
        } else {
            lowest
        }
    }

    // The same with the circuits of a place.
    fn with_slot(self, slot: Slot, lowest: Option<u32>) -> Option<u32>
        ensures { result ≡ with_all (helps_by self.sender self.receiver self.request) (held slot) lowest }
    {
        match slot {
            Slot::Unlit => lowest,
            Slot::Alone(a) => self.with_circuit(a, lowest),
            Slot::Shared(a, b) => self.with_circuit(a, self.with_circuit(b, lowest)),
        }
    }

    // The lowest number of the circuits of the places that help, from the highest place down.
    fn lowest_of(self, channels: &[Channel]) -> Option<u32>
        ensures { result ≡ fold (λ lowest channel. with_all (helps_by self.sender self.receiver self.request) (held channel.slot) lowest) None (reverse channels.now) }
    {
        channels.iter().rev().fold(None, |lowest, channel| self.with_slot(channel.slot, lowest))
    }
}

// The lowest-numbered circuit that gives up the ports that the request lacks.
fn lowest_helping(
    channels: [Channel; PLACE_COUNT],
    sender: bool,
    receiver: bool,
    request: Circuit,
) -> Ending
    ensures { result ≡ who_is (with_all (helps_by sender receiver request) (circuits channels) none_found) }
{
    let wanted = Wanted {
        request,
        sender,
        receiver,
    };
    match wanted.lowest_of(&channels) {
        Some(number) => Ending::Circuit(number),
        None => Ending::Nobody,
    }
}

// The same for a request that names two nodes of the ring: by what is seen of the places.
fn ends_named(table: RingTable, request: Circuit) -> Ending
    requires { (meets_rules table ≡ true) × (judged (named_causes table.nodes request) ≡ Ok tt) }
    ensures { result ≡ ending_by table request (judged (used_causes table request)) }
{
    let nodes = table.nodes;
    let ports = table.ports;
    let channels = table.channels;
    let limit = ports::place_limit(ports);
    let seen = survey::survey_places(nodes, limit, channels, request);
    match causes::used_verdict(ports, request, seen) {
        Ok(()) => Ending::Served,
        Err(refusal) => {
            if 0 < seen.numbered {
                return Ending::Refused(refusal);
            }
            let sender = ports::port_free(ports, request.source, seen.sent);
            let receiver = ports::port_free(ports, request.destination, seen.received);
            lowest_helping(channels, sender, receiver, request)
        }
    }
}

// Which circuit would have to end, of a table that meets the ring rules.
pub fn ends_valid(table: RingTable, number: u32, source: u8, destination: u8) -> Ending
    requires { meets_rules table ≡ true }
    ensures answer { result ≡ ending_of table (requested number source destination) }
    ensures numbers { ending_answer result ≡ answer_by (end_reasons table (requested number source destination)) (end_values table (requested number source destination)) }
{
    let request = Circuit {
        number,
        source,
        destination,
        remark: 0,
        account: 0,
    };
    match causes::nodes_verdict(table.nodes, request) {
        Ok(()) => ends_named(table, request),
        Err(refusal) => Ending::Refused(refusal),
    }
}

// The lowest-numbered circuit whose closing alone lets a request be served that lacks a port; or that there is none. A request that would be
// served, or is refused by another number, is answered by that.
pub fn ends(table: RingTable, number: u32, source: u8, destination: u8) -> Ending
    ensures answer { result ≡ ending_of table (requested number source destination) }
    ensures numbers { ending_answer result ≡ answer_by (end_reasons table (requested number source destination)) (end_values table (requested number source destination)) }
{
    if !table.meets_rules() {
        return Ending::Refused(Refusal::BrokenRule);
    }
    ends_valid(table, number, source, destination)
}
