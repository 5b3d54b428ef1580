// The roster of a ring: its circuits by source node and then by number, each with its place. Built from a table, and back.

#![tactic(auto)]

mod build;
mod held;
mod lists;

ghost use Rattle.std.specs.Prelude.{◌≡◌};
ghost use Rattle.roster.specs.Roster.{blank_roster};

pub use held::{hold, table_in};
use limits::{MOST_CIRCUITS, PORT_FIELDS};
pub use lists::{file, file_all, places_of};
use refusals::Verdict;

// The ports of each node (those beyond the last zero), the number of nodes, and how many circuits the roster has.
#[derive(Clone, Copy)]
pub struct Heading {
    pub ports: [u8; PORT_FIELDS],
    pub nodes: u8,
    pub count: u8,
}

// The circuits of a ring by source node and then by number: an entry is a key and a rest, and the room after the last is 0.
#[derive(Clone, Copy)]
pub struct Roster {
    pub keys: [u64; MOST_CIRCUITS],
    pub rests: [u64; MOST_CIRCUITS],
    pub heading: Heading,
}

// The roster built from a table, beside the verdict.
#[derive(Clone, Copy)]
pub struct Built {
    pub roster: Roster,
    pub verdict: Verdict,
}

impl Roster {
    // The blank roster, all zeros.
    pub fn blank() -> Roster
        ensures { result ≡ blank_roster }
    {
        Roster {
            keys: [0; MOST_CIRCUITS],
            rests: [0; MOST_CIRCUITS],
            heading: Heading {
                ports: [0; PORT_FIELDS],
                nodes: 0,
                count: 0,
            },
        }
    }
}
