// What a host calls on a roster: making a ring, opening and closing circuits, tidying. A call takes the roster whole and gives it back whole
// beside its answer; a refusal gives it back as it came.

#![tactic(auto)]

mod closing;
mod lent;
mod made;
mod opening;
mod tidyings;

pub use closing::{close, close_valid};
pub use lent::{open, tidy};
pub use made::make;
use moves::{MoveList, Moves};
pub use opening::{decide, decide_valid};
use ring::{Opening, Tidying};
use roster::Roster;
pub use tidyings::{decide_tidy, decide_tidy_valid};

// The roster after an opening, beside the answer.
#[derive(Clone, Copy)]
pub struct Opened {
    pub roster: Roster,
    pub answer: Opening,
}

// An opening decided by value, with the moves that go to the lent list.
#[derive(Clone, Copy)]
pub struct Decided {
    pub opened: Opened,
    pub moves: Moves,
}

// The roster after a tidying, beside the answer.
#[derive(Clone, Copy)]
pub struct Tidied {
    pub roster: Roster,
    pub answer: Tidying,
}

// A tidying decided by value, with the moves that go to the lent list.
#[derive(Clone, Copy)]
pub struct TidyDecided {
    pub tidied: Tidied,
    pub moves: MoveList,
}
