// The script program: it runs a script from standard input and writes the answers to standard output. Where a read or a write fails,
// it stops, runs no line that has not ended, and says on standard error what failed.

#![tactic(auto)]

ghost use Rattle.std.specs.Prelude.{◌≡◌, ◌*◌, ◌≤◌, length};
ghost use Rattle.script.specs.Bytes.{ValidSession};
ghost use Rattle.desk.specs.Desk.{answer_room};
ghost use Rattle.ringctl.specs.Turn.{read_size, TookIn, Reached, ReadOnce};

use desk::ANSWER_ROOM;
use script::Session;
use std::io::{ErrorKind, Read};
use std::process::ExitCode;

// The most bytes of a read.
const READ_SIZE: usize = 1024;

// The most bytes of its answers: each byte may end a line.
const OUT_SIZE: usize = ANSWER_ROOM * READ_SIZE;

// The status of a program that the system ends since nobody reads what it writes. Rattle has it run on, so that it ends itself.
const UNREAD: u8 = 128 + 13;

// Why answers were not written: nobody reads them, or the write failed.
#[derive(Clone, Copy)]
enum Unwritten {
    Unread,
    Failed,
}

// What is next after a read: another, or nothing more, since the input has ended or a call has failed.
#[derive(Clone, Copy)]
enum Next {
    Read,
    Stop,
    ReadFailed,
    WriteFailed(Unwritten),
}

// The session after a read, how many bytes its answers take at the start of the lent bytes, and what is next.
#[derive(Clone, Copy)]
struct Turn {
    session: Session,
    wrote: usize,
    next: Next,
}

// Takes in what a read answered, a count of the bytes that it left at the start of its buffer, or none where it failed. Where it failed,
// nothing is run: a line cut short is another line. Where it read nothing, the input has ended.
fn take_in(session: Session, got: Option<usize>, buffer: &[u8], out: &mut [u8]) -> Turn
    requires { ValidSession session × (answer_room ≤ length out.old) × (answer_room * length buffer.now ≤ length out.old) }
    ensures { TookIn session got buffer.now out.old out.new result }
{
    let Some(count) = got else {
        return Turn {
            session,
            wrote: 0,
            next: Next::ReadFailed,
        };
    };
    let count = count.min(buffer.len());
    if count == 0 {
        return Turn {
            session,
            wrote: script::finish(session, out),
            next: Next::Stop,
        };
    }
    let fed = script::feed(session, &buffer[..count], out);
    Turn {
        session: fed.session,
        wrote: fed.wrote,
        next: Next::Read,
    }
}

// Writes answers to standard output.
fn put(rt: &HostRuntime, answers: &[u8]) -> Result<(), Unwritten> {
    match rt.write_all(answers) {
        Ok(()) => Ok(()),
        Err(why) if why.kind() == ErrorKind::BrokenPipe => Err(Unwritten::Unread),
        Err(_) => Err(Unwritten::Failed),
    }
}

// Reads once, takes in what was read, and writes the answers.
fn read_once(rt: &HostRuntime, session: Session, out: &mut [u8]) -> Turn
    requires { Reached session × (answer_room * read_size ≤ length out.old) }
    ensures { ReadOnce session out.old out.new result }
{
    let mut buffer = [0u8; READ_SIZE];
    let got = rt.stdin().read(&mut buffer).ok();
    let turn = take_in(session, got, &buffer, out);
    match put(rt, &out[..turn.wrote]) {
        Ok(()) => turn,
        Err(why) => Turn {
            session: turn.session,
            wrote: turn.wrote,
            next: Next::WriteFailed(why),
        },
    }
}

// Reads to the end of the input, or until a call fails, and says which. A proved loop has to end, and nothing says that the input does:
// it reads as often as no run does.
fn run(rt: &HostRuntime, out: &mut [u8]) -> Next
    requires { answer_room * read_size ≤ length out.old }
{
    let mut session = script::start();
    for _ in 0..u64::MAX {
        let turn = read_once(rt, session, out);
        session = turn.session;
        match turn.next {
            Next::Read => {}
            end => return end,
        }
    }
    Next::Stop
}

// Says on standard error what failed. Where nobody hears it, nothing is said.
fn say(rt: &HostRuntime, line: &[u8]) {
    let _ = rt.stderr().write_all(line);
}

// The lent bytes have room for the answers to a read.
fn main(rt: HostRuntime) -> ExitCode {
    let mut out = [0u8; OUT_SIZE];
    match run(&rt, &mut out) {
        Next::Read | Next::Stop => {}
        Next::ReadFailed => say(&rt, b"ringctl: read failed\n"),
        Next::WriteFailed(Unwritten::Failed) => say(&rt, b"ringctl: write failed\n"),
        Next::WriteFailed(Unwritten::Unread) => return ExitCode::from(UNREAD),
    }
    ExitCode::SUCCESS
}
