// What is printed of a tidying: the number of its rounds and of its moves, and a line for each move.

#![tactic(auto)]

ghost use Rattle.std.specs.Prelude.{◌+◌, ◌≤◌, ◌++◌, length};
ghost use Rattle.limits.specs.Limits.{tidy_records};
ghost use Rattle.moves.specs.MoveList.{recorded};
ghost use Rattle.buffer.specs.Put.{Printed};
ghost use Rattle.print.specs.Answers.{move_lines};
ghost use Rattle.tidy_lines.specs.Lines.{tidy_line, tidy_line_room, moves_room, tidy_room};

use moves::MoveList;
use ring::{TidyCounts, Tidying};

// `tidy rounds R moves M`, or `tidy refused R`.
fn put_tidy_line(out: &mut [u8], at: usize, answer: Tidying) -> usize
    requires { at + tidy_line_room ≤ length out.old }
    ensures { Printed tidy_line_room out.old at (tidy_line answer) out.new result }
{
    match answer {
        Ok(TidyCounts { rounds, moves }) => print::put_filled(
            out,
            at,
            b"tidy rounds # moves #\n",
            rounds as u32,
            moves as u32,
            0,
            0,
        ),
        Err(refusal) => print::put_refusal(out, at, b"tidy refused #\n", refusal),
    }
}

// The lines of the moves, in their order.
fn put_moves(out: &mut [u8], at: usize, moves: MoveList) -> usize
    requires { (at + moves_room ≤ length out.old) × (moves.count ≤ tidy_records) }
    ensures { Printed moves_room out.old at (move_lines (recorded moves)) out.new result }
{
    let records = &moves.list[..moves.count];
    let mut next = at;
    for record in records {
        next = print::put_move(out, next, *record);
    }
    next
}

// The line of a tidying, and the lines of its moves after it.
pub fn put_tidying(out: &mut [u8], at: usize, answer: Tidying, moves: MoveList) -> usize
    requires { (at + tidy_room ≤ length out.old) × (moves.count ≤ tidy_records) }
    ensures { Printed tidy_room out.old at (tidy_line answer ++ move_lines (recorded moves)) out.new result }
{
    let next = put_tidy_line(out, at, answer);
    put_moves(out, next, moves)
}
