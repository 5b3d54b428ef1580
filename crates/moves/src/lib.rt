// The records of moved circuits, and the list that a host lends for them.

#![tactic(auto)]

ghost use Rattle.std.specs.Prelude.{◌≡◌, [], ◌+◌, ◌≤◌, length};
ghost use Rattle.limits.specs.Limits.{tidy_records};
ghost use Rattle.moves.specs.Records.{none, one, two, three, listed};
ghost use Rattle.moves.specs.Lent.{fronted, written};
ghost use Rattle.moves.specs.MoveList.{list_of, written_all};
ghost use Rattle.moves.specs.Appends.{Appends};

use lightpath::Place;
use limits::{LEAST_RECORDS, TIDY_RECORDS};

// One move of a running circuit: its number, its old place and its new one.
#[derive(Clone, Copy, Debug, PartialEq, Eq)]
pub struct Move {
    pub number: u32,
    pub from: Place,
    pub to: Place,
}

// The moves of an opening at most.
pub const MOST_MOVES: usize = 3;

// Up to three moves by value, in their order: the first `count` of the three.
#[derive(Clone, Copy, Debug, PartialEq, Eq)]
pub struct Moves {
    pub count: u8,
    pub first: Move,
    pub second: Move,
    pub third: Move,
}

// Up to 128 moves by value, in their order: the first `count` of the list.
#[derive(Clone, Copy, Debug, PartialEq, Eq)]
pub struct MoveList {
    pub count: usize,
    pub list: [Move; TIDY_RECORDS],
}

// A record that names no move: all zeros.
const BLANK: Move = Move {
    number: 0,
    from: Place(0),
    to: Place(0),
};

impl Moves {
    // No moves.
    pub fn none() -> Self
        ensures { result ≡ none }
    {
        Moves {
            count: 0,
            first: BLANK,
            second: BLANK,
            third: BLANK,
        }
    }

    // One move.
    pub fn one(m: Move) -> Self
        ensures { result ≡ one m }
    {
        Moves {
            count: 1,
            first: m,
            ..Moves::none()
        }
    }

    // Two moves, in their order.
    pub fn two(m: Move, n: Move) -> Self
        ensures { result ≡ two m n }
    {
        Moves {
            count: 2,
            second: n,
            ..Moves::one(m)
        }
    }

    // Three moves, in their order.
    pub fn three(m: Move, n: Move, o: Move) -> Self
        ensures { result ≡ three m n o }
    {
        Moves {
            count: 3,
            third: o,
            ..Moves::two(m, n)
        }
    }
}

impl MoveList {
    // No moves.
    pub fn none() -> Self
        ensures { result ≡ list_of [] }
    {
        MoveList {
            count: 0,
            list: [BLANK; TIDY_RECORDS],
        }
    }

    // These moves, and up to three more after them.
    pub fn with(self, moves: Moves) -> Self
        requires { self.count + length (listed moves) ≤ tidy_records }
        ensures { Appends self (listed moves) result }
    {
        let more = usize::from(moves.count).min(MOST_MOVES);
        let end = self.count + more;
        let mut all = self;
        all.list[self.count..end].copy_from_slice(
            &[moves.first, moves.second, moves.third][..more],
        );
        all.count = end;
        all
    }
}

// Records are written to the first ones of a list, in their order, and the others keep their values. A list of fewer than `least` is left
// as it is.
fn write_front(list: &mut [Move], least: usize, records: &[Move])
    requires { length records.now ≤ least }
    ensures { list.new ≡ fronted least records.now list.old }
{
    if list.len() < least {
        return;
    }
    list[..records.len()].copy_from_slice(records);
}

// The moves are written to the first records of the lent list, and the others keep their values. A list of fewer than three records is
// left as it is.
pub fn write_moves(list: &mut [Move], moves: Moves)
    ensures { list.new ≡ written list.old moves }
{
    let count = usize::from(moves.count).min(MOST_MOVES);
    write_front(
        list,
        LEAST_RECORDS,
        &[moves.first, moves.second, moves.third][..count],
    );
}

// Up to 128 moves are written to the first records of the lent list, in their order, and the others keep their values. A list of fewer
// records than there are moves is left as it is.
pub fn write_list(list: &mut [Move], moves: MoveList)
    ensures { list.new ≡ written_all list.old moves }
{
    let end = moves.count.min(TIDY_RECORDS);
    write_front(list, end, &moves.list[..end]);
}
