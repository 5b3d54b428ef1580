// The order desk: one line of a script, run and answered as bytes. The circuits stand in keys and rests that the caller lends, as in a roster,
// and are changed there.

#![tactic(auto)]

ghost use Rattle.std.specs.Prelude.{◌≡◌, ◌+◌, ◌≤◌, true, Ok, length};
ghost use Rattle.buffer.specs.Put.{Printed};
ghost use Rattle.print.specs.Answers.{line_refused};
ghost use Rattle.ring.specs.Table.{meets_rules};
ghost use Rattle.desk.specs.Desk.{answer_room, desk_of, desk_after, Keeps, CanRun, HasRun, run_ring, run_open, run_close, run_line};
ghost use Rattle.desk.specs.Demand3.{Opens, left_by};

use lightpath::Circuit;
use limits::LEAST_RECORDS;
use print::OPENING_ROOM;
use requests::{Line, Request};
use ring::{Answered, RingTable};
use roster::Heading;

// The most bytes of a line's answer: an opening's is the longest.
pub const ANSWER_ROOM: usize = OPENING_ROOM;

// The desk after a line, and the position after its answer. Beside the keys and the rests the desk is the heading of an accepted ring's table,
// or none before the first.
#[derive(Clone, Copy)]
pub struct Ran {
    pub desk: Option<Heading>,
    pub next: usize,
}

// Prints `line refused`, and nothing changes.
pub fn refuse(desk: Option<Heading>, out: &mut [u8], at: usize) -> Ran
    requires { at + answer_room ≤ length out.old }
    ensures { (result.desk ≡ desk) × Printed answer_room out.old at line_refused out.new result.next }
{
    let next = print::put_line_refused(out, at);
    Ran { desk, next }
}

// The desk after a table is answered: it holds an accepted one, and keeps its own where it is refused.
pub fn hold_accepted(
    desk: Option<Heading>,
    keys: &mut [u64],
    rests: &mut [u64],
    answered: Answered,
) -> Option<Heading>
    requires { Keeps desk keys.old rests.old × (answered.verdict ≡ Ok tt → meets_rules answered.table ≡ true) }
    ensures { (desk_of result keys.new rests.new ≡ desk_after (desk_of desk keys.old rests.old) answered.table answered.verdict) × Keeps result keys.new rests.new }
{
    match answered.verdict {
        Ok(()) => Some(roster::hold(keys, rests, answered.table)),
        Err(_) => desk,
    }
}

// A ring of so many nodes with some ports; a refused one keeps the old table.
fn run_ring(
    desk: Option<Heading>,
    keys: &mut [u64],
    rests: &mut [u64],
    nodes: u8,
    ports: &[u8],
    out: &mut [u8],
    at: usize,
) -> Ran
    requires { CanRun desk keys.old rests.old out.old at }
    ensures { HasRun (run_ring (desk_of desk keys.old rests.old) nodes ports.now) out.old at keys.new rests.new out.new result }
{
    let made = RingTable::make(nodes, ports);
    let next = print::put_ring(out, at, nodes, made.table.wavelengths(), made.verdict);
    let desk = hold_accepted(desk, keys, rests, made);
    Ran { desk, next }
}

// An opening, with three records lent.
fn run_open(
    desk: Option<Heading>,
    keys: &mut [u64],
    rests: &mut [u64],
    circuit: Circuit,
    out: &mut [u8],
    at: usize,
) -> Ran
    requires { CanRun desk keys.old rests.old out.old at }
    ensures { HasRun (run_open (desk_of desk keys.old rests.old) circuit) out.old at keys.new rests.new out.new result }
{
    let Some(heading) = desk else {
        return refuse(desk, out, at);
    };
    let opened = roster_open::open_in(heading, keys, rests, circuit, LEAST_RECORDS);
    let next = print::put_opening(out, at, circuit.number, opened.answer, opened.moves);
    Ran {
        desk: Some(opened.heading),
        next,
    }
}

// A closing.
fn run_close(
    desk: Option<Heading>,
    keys: &mut [u64],
    rests: &mut [u64],
    number: u32,
    out: &mut [u8],
    at: usize,
) -> Ran
    requires { CanRun desk keys.old rests.old out.old at }
    ensures { HasRun (run_close (desk_of desk keys.old rests.old) number) out.old at keys.new rests.new out.new result }
{
    let Some(heading) = desk else {
        return refuse(desk, out, at);
    };
    let closed = roster_open::close_in(heading, keys, rests, number);
    let next = print::put_closing(out, at, number, closed.verdict);
    Ran {
        desk: Some(closed.heading),
        next,
    }
}

// Runs a line without its line end, and writes the answer at a position of the lent bytes.
pub fn run_line(
    desk: Option<Heading>,
    keys: &mut [u64],
    rests: &mut [u64],
    line: &[u8],
    out: &mut [u8],
    at: usize,
) -> Ran
    requires { CanRun desk keys.old rests.old out.old at }
    ensures answer { HasRun (run_line (desk_of desk keys.old rests.old) line.now) out.old at keys.new rests.new out.new result }
    ensures demand3 { Opens (desk_of desk keys.old rests.old) line.now (left_by at keys.new rests.new out.new result) }
{
    let Line { request, ports } = requests::parse_line(line);
    match request {
        Request::Ring { nodes, count } => run_ring(
            desk,
            keys,
            rests,
            nodes,
            &ports[..count],
            out,
            at,
        ),
        Request::Open { circuit } => run_open(desk, keys, rests, circuit, out, at),
        Request::Close { number } => run_close(desk, keys, rests, number, out, at),
        Request::Bad => refuse(desk, out, at),
    }
}
