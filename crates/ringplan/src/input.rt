// Lines from the bytes as they come: a line is held until it ends, and then run. The desk's circuits stand in keys and rests that are lent.

ghost use Rattle.std.specs.Prelude.{◌≡◌, ◌≤◌, length};
ghost use Rattle.ringplan.specs.Plan.{BetweenReads, script_in, start_held};
ghost use Rattle.ringplan.specs.Turn.{Took, TookIn, Reached, Finished};

use commands::LONGEST_COMMAND;
use roster::Heading;
use std::io::ErrorKind;

// A line's bytes, and one more by which a line is seen to be too long.
pub const HELD_ROOM: usize = LONGEST_COMMAND + 1;

// The desk, which is none before the first accepted ring, and how many bytes of a line are held.
#[derive(Clone, Copy)]
pub struct Held {
    pub desk: Option<Heading>,
    pub count: usize,
}

// What is held after some bytes of a chunk, the position after them, and how many bytes their answers take at the start of the lent bytes.
#[derive(Clone, Copy)]
struct Fed {
    held: Held,
    taken: usize,
    wrote: usize,
}

// Why answers were not written: nobody reads them, or the write failed.
#[derive(Clone, Copy)]
pub enum Unwritten {
    Unread,
    Failed,
}

// What is held after a chunk, and whether every answer was written.
#[derive(Clone, Copy)]
pub struct Intake {
    pub held: Held,
    pub written: Result<(), Unwritten>,
}

// Before the first byte: no ring was accepted, and no byte is held.
pub fn start() -> Held
    ensures { result ≡ start_held }
{
    Held {
        desk: None,
        count: 0,
    }
}

// Takes a chunk's bytes in from a position on and runs the lines that end, until the room left is too little for another answer.
fn feed(
    rt: &HostRuntime,
    held: Held,
    keys: &mut [u64],
    rests: &mut [u64],
    line: &mut [u8],
    chunk: &[u8],
    start: usize,
    out: &mut [u8],
) -> Fed
    requires { BetweenReads held keys.old rests.old line.old out.old × (start ≤ length chunk.now) }
    ensures { Took (script_in held keys.old rests.old line.old) chunk.now start keys.new rests.new line.new out.new result }
{
    let mut desk = held.desk;
    let mut count = held.count;
    let mut at: usize = 0;
    // By position: where the room is too little, the position after the byte is given back.
    for i in start..chunk.len() {
        let byte = chunk[i];
        if byte == b'\n' {
            let ran = planner::run_line(rt, desk, keys, rests, &line[..count], out, at);
            desk = ran.desk;
            at = ran.next;
            count = 0;
            if answer_room::has_room(out.len() - at) {
                continue;
            }
            return Fed {
                held: Held { desk, count },
                taken: i + 1,
                wrote: at,
            };
        }
        if count < HELD_ROOM {
            line[count] = byte;
            count += 1;
        }
    }
    Fed {
        held: Held { desk, count },
        taken: chunk.len(),
        wrote: at,
    }
}

// Writes answers to standard output.
pub fn put(rt: &HostRuntime, answers: &[u8]) -> Result<(), Unwritten> {
    match rt.write_all(answers) {
        Ok(()) => Ok(()),
        Err(why) if why.kind() == ErrorKind::BrokenPipe => Err(Unwritten::Unread),
        Err(_) => Err(Unwritten::Failed),
    }
}

// Takes a chunk in and writes its answers, until a write fails.
pub fn take_in(
    rt: &HostRuntime,
    held: Held,
    keys: &mut [u64],
    rests: &mut [u64],
    line: &mut [u8],
    chunk: &[u8],
    out: &mut [u8],
) -> Intake
    requires { BetweenReads held keys.old rests.old line.old out.old }
    ensures ready { BetweenReads result.held keys.new rests.new line.new out.new }
    ensures answered { TookIn (script_in held keys.old rests.old line.old) chunk.now (script_in result.held keys.new rests.new line.new) result.written }
{
    let mut held = held;
    let mut taken: usize = 0;
    // From where each feed left off.
    while taken < chunk.len() {
        let fed = feed(rt, held, keys, rests, line, chunk, taken, out);
        held = fed.held;
        taken = fed.taken;
        if let Err(why) = put(rt, &out[..fed.wrote]) {
            return Intake {
                held,
                written: Err(why),
            };
        }
    }
    Intake {
        held,
        written: Ok(()),
    }
}

// Runs the line that is held when the input has ended. Gives how many bytes its answer takes at the start of the lent bytes.
pub fn finish(
    rt: &HostRuntime,
    held: Held,
    keys: &mut [u64],
    rests: &mut [u64],
    line: &[u8],
    out: &mut [u8],
) -> usize
    requires { Reached held keys.old rests.old line.now out.old }
    ensures { Finished (script_in held keys.old rests.old line.now) out.new result }
{
    if held.count == 0 {
        return 0;
    }
    planner::run_line(rt, held.desk, keys, rests, &line[..held.count], out, 0).next
}
