// Opening, placing and closing circuits on the entries of a roster, in place: no table is copied, and none is built but for step 3.

#![tactic(auto)]

mod close;
mod entries_moved;
mod open;

pub use close::close_in;
use moves::Moves;
pub use open::{open_in, place_in};
use refusals::Verdict;
use ring::Opening;
use roster::Heading;

// The heading after an opening, beside the answer and the moves.
#[derive(Clone, Copy)]
pub struct OpenedIn {
    pub heading: Heading,
    pub answer: Opening,
    pub moves: Moves,
}

// The heading after a closing, beside the verdict.
#[derive(Clone, Copy)]
pub struct ClosedIn {
    pub heading: Heading,
    pub verdict: Verdict,
}
