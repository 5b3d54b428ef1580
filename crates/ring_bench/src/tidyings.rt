// Tidying a table over and over, and what the last tidying gave as bytes: the number of rounds and of moves, a byte each, and the records of
// the moves, six bytes each: number, highest byte first, old place, new place.

ghost use Rattle.std.specs.Prelude.{◌≡◌, true, ◌+◌, ◌*◌, ◌≤◌, length};
ghost use Rattle.limits.specs.Limits.{tidy_records};
ghost use Rattle.ring.specs.Table.{meets_rules};
ghost use Rattle.ring.specs.Tidying.{decide_tidy_of};

use form::NUMBER_WIDTH;
use limits::TIDY_RECORDS;
use moves::{Move, MoveList};
use ring::{RingTable, TidyCounts, TidyDecision, Tidying};

// The bytes of a record.
const RECORD: usize = NUMBER_WIDTH + 2;

// The bytes of the numbers and the records at most.
pub const MOST_RECORDED: usize = 2 + TIDY_RECORDS * RECORD;

// So many tidyings of one table; the last of them.
pub fn repeat(table: RingTable, count: u32) -> TidyDecision
    requires { meets_rules table ≡ true }
    ensures { result ≡ decide_tidy_of table tidy_records }
{
    let mut last = table.decide_tidy_valid(TIDY_RECORDS);
    for _ in 1..count {
        last = table.decide_tidy_valid(TIDY_RECORDS);
    }
    last
}

// Writes the record of a move at a position and gives the position after it.
fn put_record(out: &mut [u8], at: usize, m: Move) -> usize
    requires { at + 6 ≤ length out.old }
    ensures { (result ≡ at + 6) × (length out.new ≡ length out.old) }
{
    let next = byte_numbers::put_number(out, at, m.number, NUMBER_WIDTH);
    out[next] = m.from.0;
    out[next + 1] = m.to.0;
    next + 2
}

// Writes the records of the moves, in their order.
fn put_records(out: &mut [u8], at: usize, moves: MoveList) -> usize
    requires { (moves.count ≤ tidy_records) × (at + moves.count * 6 ≤ length out.old) }
    ensures { (result ≡ at + moves.count * 6) × (length out.new ≡ length out.old) }
{
    let records = &moves.list[..moves.count];
    let mut next = at;
    for m in records {
        next = put_record(out, next, *m);
    }
    next
}

// The number of rounds.
fn rounds_of(answer: Tidying) -> u8 {
    match answer {
        Ok(TidyCounts { rounds, .. }) => rounds,
        Err(_) => 0,
    }
}

// Writes the numbers of rounds and of moves, and the records, and gives how many bytes they are.
pub fn put_moves(out: &mut [u8; MOST_RECORDED], answer: Tidying, moves: MoveList) -> usize
    requires { moves.count ≤ tidy_records }
    ensures { (result ≡ 2 + moves.count * 6) × (result ≤ length out.new) }
{
    out[0] = rounds_of(answer);
    out[1] = moves.count as u8;
    put_records(out, 2, moves)
}
