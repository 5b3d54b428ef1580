// What the script program prints: the lines that answer a request, as text in lent bytes.

#![tactic(auto)]

ghost use Rattle.std.specs.Prelude.{◌+◌, ◌*◌, ◌≤◌, ◌++◌, length};
ghost use Rattle.buffer.specs.Put.{Printed};
ghost use Rattle.moves.specs.Records.{most_moves, listed};
ghost use Rattle.refusals.specs.Refusal.{number_of};
ghost use Rattle.print.specs.Answers.{line_refused, ring_line, close_line, open_line, move_line, move_lines, open_room, move_room, close_room, ring_room, refused_room, opening_room};
ghost use Rattle.print.specs.Filled.{filled, filled_room};

use moves::{MOST_MOVES, Move, Moves};
use refusals::{Refusal, Verdict};
use ring::{Opening, Taken};

// The most bytes of an opening's line, and of a move's.
const OPEN_ROOM: usize = 67;

const MOVE_ROOM: usize = 46;

// The most bytes of an answer: an opening's line and its move lines.
pub const OPENING_ROOM: usize = OPEN_ROOM + MOST_MOVES * MOVE_ROOM;

// The words of a line with a number in place of each `#`, up to four in their order.
pub fn put_filled(
    out: &mut [u8],
    at: usize,
    words: &[u8],
    mut a: u32,
    mut b: u32,
    mut c: u32,
    d: u32,
) -> usize
    requires { at + filled_room words.now ≤ length out.old }
    ensures { Printed (filled_room words.now) out.old at (filled words.now a b c d) out.new result }
{
    let mut next = at;
    for byte in words {
        if *byte == b'#' {
            next = text::put_number(out, next, a);
            (a, b, c) = (b, c, d);
        } else {
            next = buffer::put_byte(out, next, *byte);
        }
    }
    next
}

// The words of a line, with the refusal's number in place of `#`.
pub fn put_refusal(out: &mut [u8], at: usize, words: &[u8], refusal: Refusal) -> usize
    requires { at + filled_room words.now ≤ length out.old }
    ensures { Printed (filled_room words.now) out.old at (filled words.now (number_of refusal) 0 0 0) out.new result }
{
    let number = u8::from(refusal);
    put_filled(out, at, words, number as u32, 0, 0, 0)
}

// The line of a move.
pub fn put_move(out: &mut [u8], at: usize, m: Move) -> usize
    requires { at + move_room ≤ length out.old }
    ensures { Printed move_room out.old at (move_line m) out.new result }
{
    put_filled(
        out,
        at,
        b"move # from # to #\n",
        m.number,
        m.from.0 as u32,
        m.to.0 as u32,
        0,
    )
}

// The lines of the moves, in their order.
fn put_moves(out: &mut [u8], at: usize, moves: Moves) -> usize
    requires { at + most_moves * move_room ≤ length out.old }
    ensures { Printed (most_moves * move_room) out.old at (move_lines (listed moves)) out.new result }
{
    let count = moves.count;
    if count == 0 {
        return at;
    }
    let a = put_move(out, at, moves.first);
    if count == 1 {
        return a;
    }
    let b = put_move(out, a, moves.second);
    if count == 2 {
        return b;
    }
    put_move(out, b, moves.third)
}

// An opening's line.
fn put_open_line(out: &mut [u8], at: usize, number: u32, answer: Opening) -> usize
    requires { at + open_room ≤ length out.old }
    ensures { Printed open_room out.old at (open_line number answer) out.new result }
{
    match answer {
        Ok(
            Taken {
                place,
                moves,
                looks,
            },
        ) => put_filled(
            out,
            at,
            b"open # place # moves # looks #\n",
            number,
            place.0 as u32,
            moves as u32,
            looks as u32,
        ),
        Err(refusal) => {
            let reason = u8::from(refusal);
            put_filled(out, at, b"open # refused #\n", number, reason as u32, 0, 0)
        }
    }
}

// An opening's line, and the lines of its moves after it.
pub fn put_opening(out: &mut [u8], at: usize, number: u32, answer: Opening, moves: Moves) -> usize
    requires { at + opening_room ≤ length out.old }
    ensures { Printed opening_room out.old at (open_line number answer ++ move_lines (listed moves)) out.new result }
{
    let next = put_open_line(out, at, number, answer);
    put_moves(out, next, moves)
}

// The line of a closing.
pub fn put_closing(out: &mut [u8], at: usize, number: u32, verdict: Verdict) -> usize
    requires { at + close_room ≤ length out.old }
    ensures { Printed close_room out.old at (close_line number verdict) out.new result }
{
    match verdict {
        Ok(()) => put_filled(out, at, b"close #\n", number, 0, 0, 0),
        Err(refusal) => put_refusal(out, at, b"close refused #\n", refusal),
    }
}

// The line of a ring with so many wavelengths.
pub fn put_ring(out: &mut [u8], at: usize, nodes: u8, wavelengths: u16, verdict: Verdict) -> usize
    requires { at + ring_room ≤ length out.old }
    ensures { Printed ring_room out.old at (ring_line nodes wavelengths verdict) out.new result }
{
    match verdict {
        Ok(()) => put_filled(
            out,
            at,
            b"ring # wavelengths #\n",
            nodes as u32,
            wavelengths as u32,
            0,
            0,
        ),
        Err(refusal) => put_refusal(out, at, b"ring refused #\n", refusal),
    }
}

// The line that answers a refused line.
pub fn put_line_refused(out: &mut [u8], at: usize) -> usize
    requires { at + refused_room ≤ length out.old }
    ensures { Printed refused_room out.old at line_refused out.new result }
{
    buffer::put_text(out, at, b"line refused\n")
}
