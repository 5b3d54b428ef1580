// The line that says what failed, and what the system says of why.

ghost use Rattle.std.specs.Prelude.{◌≡◌, ◌≤◌, ℕ, List, length, take};
ghost use Rattle.std.specs.Counts.{IsPrefixLen};
ghost use Rattle.files.specs.Files.{Kept, words_room};

use crate::LONGEST_NAME;
use std::fmt::Write;
use std::marker::Model;
use std::{fmt, io};

// The room of a line: for a path of a line of the program's, which is longer than any name, and what is said of it.
pub const LINE_ROOM: usize = 2 * (LONGEST_NAME + 1) + 256;

// The room of what std says of an error.
const WORDS_ROOM: usize = 128;

// A byte as it is shown: one that could steer a terminal is a question mark.
fn shown(byte: u8) -> u8 {
    if byte < b' ' || byte == 127 {
        b'?'
    } else {
        byte
    }
}

// Puts as much of a text as fits, and gives the position after it.
fn put_shown(out: &mut [u8], at: usize, text: &[u8]) -> usize
    requires { at ≤ length out.old }
    ensures { result ≤ length out.new }
{
    let room = &mut out[at..];
    let count = room.len().min(text.len());
    for (slot, byte) in room.iter_mut().zip(text) {
        *slot = shown(*byte);
    }
    at + count
}

// The line: the program, the path, and what failed.
pub fn put_line(out: &mut [u8], path: &[u8], what: &[u8]) -> usize
    ensures { IsPrefixLen result out.new }
{
    let end = put_shown(out, 0, b"ringplan: ");
    let end = put_shown(out, end, path);
    put_shown(out, end, what)
}

// What std says of an error, as far as it fits.
#[derive(Drop)]
pub struct Words {
    bytes: [u8; WORDS_ROOM],
    count: usize,
}

impl Model for Words {
    ghost Value = { List ℕ };

    ghost view = { λ words. take words.count words.bytes };

    ghost invariant = { λ words. words.count ≤ words_room };
}

impl Write for Words {
    ghost write_str_gives = { Kept };

    fn write_str(&mut self, text: &str) -> fmt::Result {
        let text = text.as_bytes();
        let fits = text.len().min(WORDS_ROOM - self.count);
        self.count = buffer::put_text(&mut self.bytes, self.count, &text[..fits]);
        Ok(())
    }
}

impl Words {
    pub fn of(error: io::Error) -> Words
        ensures { length result ≤ words_room }
    {
        let mut words = Words {
            bytes: [0; WORDS_ROOM],
            count: 0,
        };
        let _ = write!(words, "{error}");
        // No effect at run time: the proof reads there that the count is within the room.
        let _ = &words.count;
        words
    }

    // The system's words alone: std puts the error's number in brackets after them.
    pub fn text(&self) -> &[u8]
        ensures { result.now ≡ take (length result.now) self.now }
    {
        let text = &self.bytes[..self.count];
        match text.iter().rposition(|byte| *byte == b'(') {
            Some(at) if at > 0 => &text[..at - 1],
            _ => text,
        }
    }
}
