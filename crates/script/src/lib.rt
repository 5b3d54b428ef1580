// A script's bytes as they come: a line is held until it ends, and then run.

#![tactic(auto)]

mod input;

pub use input::{feed, finish, start};
use limits::MOST_CIRCUITS;
use requests::LONGEST_LINE;
use roster::Heading;

// The most bytes of a line that are held: enough to see that a line is too long.
const MOST_HELD: usize = LONGEST_LINE + 1;

// The desk, which is none before the first accepted ring, with the keys and rests of its circuits, and the bytes of a line that has not ended.
#[derive(Clone, Copy)]
pub struct Session {
    pub keys: [u64; MOST_CIRCUITS],
    pub rests: [u64; MOST_CIRCUITS],
    pub desk: Option<Heading>,
    pub line: [u8; MOST_HELD],
    pub held: usize,
}

// The session after some bytes, and how many bytes it printed.
#[derive(Clone, Copy)]
pub struct Fed {
    pub session: Session,
    pub wrote: usize,
}
