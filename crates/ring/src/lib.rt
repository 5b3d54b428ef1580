// The ring table and what a host calls on it: making a ring, opening and closing circuits, tidying. A call on a table takes it whole and
// gives it back whole beside its answer; a refusal gives it back as it was.

#![tactic(auto)]

mod close;
mod decide;
mod lend;
mod make;
mod tidy;

ghost use Rattle.std.specs.Prelude.{◌≡◌};
ghost use Rattle.ports.specs.Ports.{wavelengths};
ghost use Rattle.ring.specs.Table.{meets_rules, blank_table};

use channels::Channel;
use lightpath::Place;
use limits::{PLACE_COUNT, PORT_FIELDS};
use moves::{MoveList, Moves};
use refusals::{Refusal, Verdict};

// What stands at the places of a ring, the ports of each node (those beyond the last zero), and the number of nodes. The places come
// first, so that they begin where the table does and a copy of them is whole: bytes before them would be copied along.
#[derive(Clone, Copy)]
pub struct RingTable {
    pub channels: [Channel; PLACE_COUNT],
    pub ports: [u8; PORT_FIELDS],
    pub nodes: u8,
}

// The place that an opening took, and the number of moves and of pairs tested.
#[derive(Clone, Copy)]
pub struct Taken {
    pub place: Place,
    pub moves: u8,
    pub looks: u16,
}

// The answer to an opening.
pub type Opening = Result<Taken, Refusal>;

// The table after an opening, beside the answer.
#[derive(Clone, Copy)]
pub struct Opened {
    pub table: RingTable,
    pub answer: Opening,
}

// An opening decided by value, with the moves that go to the lent list.
#[derive(Clone, Copy)]
pub struct Decision {
    pub opened: Opened,
    pub moves: Moves,
}

// The table after a closing, or after a ring was made, beside the verdict.
#[derive(Clone, Copy)]
pub struct Answered {
    pub table: RingTable,
    pub verdict: Verdict,
}

// The number of rounds of a tidying, and of its moves.
#[derive(Clone, Copy)]
pub struct TidyCounts {
    pub rounds: u8,
    pub moves: u8,
}

// The answer to a tidying.
pub type Tidying = Result<TidyCounts, Refusal>;

// The table after a tidying, beside the answer.
#[derive(Clone, Copy)]
pub struct Tidied {
    pub table: RingTable,
    pub answer: Tidying,
}

// A tidying decided by value, with the moves that go to the lent list.
#[derive(Clone, Copy)]
pub struct TidyDecision {
    pub tidied: Tidied,
    pub moves: MoveList,
}

impl RingTable {
    // The blank table, all zeros.
    pub fn blank() -> RingTable
        ensures { result ≡ blank_table }
    {
        RingTable {
            nodes: 0,
            ports: [0; PORT_FIELDS],
            channels: channels::unlit_channels(),
        }
    }

    // Whether the table meets the ring rules.
    pub fn meets_rules(self) -> bool
        ensures { result ≡ meets_rules self }
    {
        let nodes = self.nodes;
        let ports = self.ports;
        let channels = self.channels;
        rules::ring_rules(nodes, ports, channels)
    }

    // The number of wavelengths each way.
    pub fn wavelengths(self) -> u16
        ensures { result ≡ wavelengths self.ports }
    {
        let ports = self.ports;
        ports::wavelengths(ports)
    }
}
