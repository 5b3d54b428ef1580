// A script's bytes as they come: lines end at LF, over any reads.
ghost use Rattle.std.specs.Prelude.{◌≡◌, ◌*◌, ◌≤◌, length};
ghost use Rattle.script.specs.Bytes.{start_session, ValidSession, Took, Finished};
ghost use Rattle.desk.specs.Desk.{answer_room};

use crate::{Fed, MOST_HELD, Session};
use limits::MOST_CIRCUITS;

// Before the first byte: no ring was accepted, and no byte is held.
pub fn start() -> Session
    ensures { result ≡ start_session }
{
    Session {
        keys: [0; MOST_CIRCUITS],
        rests: [0; MOST_CIRCUITS],
        desk: None,
        line: [0; MOST_HELD],
        held: 0,
    }
}

// Takes bytes in, and writes what they print at the start of the lent bytes.
pub fn feed(session: Session, chunk: &[u8], out: &mut [u8]) -> Fed
    requires { ValidSession session × (answer_room * length chunk.now ≤ length out.old) }
    ensures { Took session chunk.now out.old out.new result }
{
    let Session {
        mut keys,
        mut rests,
        mut desk,
        mut line,
        mut held,
    } = session;
    let mut at = 0;
    for byte in chunk {
        let fits = held < MOST_HELD;
        if *byte == b'\n' {
            let ran = desk::run_line(desk, &mut keys, &mut rests, &line[..held], out, at);
            desk = ran.desk;
            at = ran.next;
            held = 0;
        } else if fits {
            line[held] = *byte;
            held += 1;
        }
    }
    Fed {
        session: Session {
            keys,
            rests,
            desk,
            line,
            held,
        },
        wrote: at,
    }
}

// The end of the input ends a line that is held. Gives how many bytes were written at the start of the lent bytes.
pub fn finish(session: Session, out: &mut [u8]) -> usize
    requires { ValidSession session × (answer_room ≤ length out.old) }
    ensures { Finished session out.old out.new result }
{
    if session.held == 0 {
        return 0;
    }
    feed(session, b"\n", out).wrote
}
