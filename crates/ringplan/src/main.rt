// The planner's program: it runs lines from standard input and writes the answers to standard output.

#![tactic(auto)]

mod input;

ghost use Rattle.std.specs.Prelude.{◌≡◌, ◌≤◌, length, replicate};
ghost use Rattle.limits.specs.Limits.{most_circuits};
ghost use Rattle.answer_room.specs.Room.{line_room};
ghost use Rattle.ringplan.specs.Plan.{held_room, BetweenReads, script_in};
ghost use Rattle.ringplan.specs.Turn.{Reached, ReadOnce};

use answer_room::LINE_ROOM;
use input::{HELD_ROOM, Held, Unwritten};
use limits::MOST_CIRCUITS;
use std::io::Read;
use std::process::ExitCode;

// The bytes that answers are collected in: room for one of the most bytes and others before it.
const OUT_ROOM: usize = 2 * LINE_ROOM;

// The bytes of one read at most.
const READ_SIZE: usize = 1024;

// The status of a program that the system ends since nobody reads what it writes. Rattle has it run on, so that it ends itself.
const UNREAD: u8 = 128 + 13;

// What failed: a read, or the writing of answers.
#[derive(Clone, Copy)]
enum Failure {
    Read,
    Write(Unwritten),
}

// What is to be done after a read: another, or to end the input, or nothing more, since a call has failed.
#[derive(Clone, Copy)]
enum Next {
    Read,
    Finish,
    Stop(Failure),
}

// What is held after a read, and what is next.
#[derive(Clone, Copy)]
struct Turn {
    held: Held,
    next: Next,
}

// Says on standard error what failed. Where nobody hears it, nothing is said.
fn say(rt: &HostRuntime, line: &[u8]) {
    let _ = rt.stderr().write_all(line);
}

// Reads once, runs the lines that ended and writes their answers. The input ends where there is nothing to read.
fn read_once(
    rt: &HostRuntime,
    held: Held,
    keys: &mut [u64],
    rests: &mut [u64],
    line: &mut [u8],
    out: &mut [u8],
) -> Turn
    requires { Reached held keys.old rests.old line.old out.old }
    ensures ready { BetweenReads result.held keys.new rests.new line.new out.new }
    ensures read { ReadOnce (script_in held keys.old rests.old line.old) (script_in result.held keys.new rests.new line.new) result.next }
{
    let mut buffer = [0u8; READ_SIZE];
    let Ok(count) = rt.stdin().read(&mut buffer) else {
        return Turn {
            held,
            next: Next::Stop(Failure::Read),
        };
    };
    if count == 0 {
        return Turn {
            held,
            next: Next::Finish,
        };
    }
    let taken = input::take_in(rt, held, keys, rests, line, &buffer[..count], out);
    let held = taken.held;
    match taken.written {
        Ok(()) => Turn {
            held,
            next: Next::Read,
        },
        Err(why) => Turn {
            held,
            next: Next::Stop(Failure::Write(why)),
        },
    }
}

// Runs the line that is held when the input has ended, and writes its answer.
fn end_input(
    rt: &HostRuntime,
    held: Held,
    keys: &mut [u64],
    rests: &mut [u64],
    line: &[u8],
    out: &mut [u8],
) -> Result<(), Unwritten>
    requires { Reached held keys.old rests.old line.now out.old }
{
    let wrote = input::finish(rt, held, keys, rests, line, out);
    input::put(rt, &out[..wrote])
}

// Reads to the end of the input, or until a call fails. A proved loop has to end, and nothing says that the input does: it reads as often
// as no run does.
fn run(
    rt: &HostRuntime,
    keys: &mut [u64],
    rests: &mut [u64],
    line: &mut [u8],
    out: &mut [u8],
) -> Result<(), Failure>
    requires { (keys.old ≡ replicate most_circuits 0) × (rests.old ≡ replicate most_circuits 0) × (held_room ≤ length line.old) × (line_room ≤ length out.old) }
{
    let mut held = input::start();
    for _ in 0..u64::MAX {
        let turn = read_once(rt, held, keys, rests, line, out);
        held = turn.held;
        match turn.next {
            Next::Read => {}
            Next::Finish => {
                return end_input(rt, held, keys, rests, line, out).map_err(Failure::Write);
            }
            Next::Stop(why) => return Err(why),
        }
    }
    Ok(())
}

fn main(rt: HostRuntime) -> ExitCode {
    let mut keys = [0u64; MOST_CIRCUITS];
    let mut rests = [0u64; MOST_CIRCUITS];
    let mut line = [0u8; HELD_ROOM];
    let mut out = [0u8; OUT_ROOM];
    match run(&rt, &mut keys, &mut rests, &mut line, &mut out) {
        Ok(()) => {}
        Err(Failure::Read) => say(&rt, b"ringplan: read failed\n"),
        Err(Failure::Write(Unwritten::Failed)) => say(&rt, b"ringplan: write failed\n"),
        Err(Failure::Write(Unwritten::Unread)) => return ExitCode::from(UNREAD),
    }
    ExitCode::SUCCESS
}
