// A file made with a name that no other has.

ghost use Rattle.std.specs.Prelude.{ℕ, ◌+◌, ◌<◌, ◌≡◌, length, slice_index};

use crate::about::text_of;
use std::fs::{File, OpenOptions};
use std::io;
use std::io::ErrorKind;
use std::os::unix::fs::OpenOptionsExt;
use std::random::RandomSource;

// The last bytes of such a name, which are letters and digits by chance.
const CHOSEN: usize = 6;

// The letters and digits, and how many there are.
const LETTERS: &[u8; LETTER_COUNT] =
    b"abcdefghijklmnopqrstuvwxyzABCDEFGHIJKLMNOPQRSTUVWXYZ0123456789";

const LETTER_COUNT: usize = 62;

// So many names are tried, as by C's mkstemp.
const TRIES: u32 = 238_328;

// The system's number for a name that is taken.
const TAKEN: i32 = 17;

// Who may use such a file: its owner.
const OWN: u32 = 0o600;

// The letter or digit of a byte that came by chance.
fn letter(byte: u8) -> u8 {
    LETTERS[byte as usize % LETTER_COUNT]
}

// Puts letters and digits in place of a name's last bytes.
fn put_letters(name: &mut [u8], bytes: &[u8; CHOSEN])
    ensures { (k : ℕ) → k + 6 < length name.old → slice_index name.new k ≡ slice_index name.old k }
{
    let mut at = name.len();
    for byte in bytes {
        if at > 0 {
            at -= 1;
            name[at] = letter(*byte);
        }
    }
}

// Makes the file, unless there is one with the name.
fn create_new(rt: &HostRuntime, name: &[u8]) -> io::Result<File> {
    OpenOptions::new()
        .read(true)
        .write(true)
        .create_new(true)
        .mode(OWN)
        .open(rt, text_of(name)?)
}

// Makes a file and leaves its name in place of the one given, whose last bytes are chosen anew.
pub fn create(rt: &HostRuntime, name: &mut [u8]) -> io::Result<File>
    ensures { (k : ℕ) → k + 6 < length name.old → slice_index name.new k ≡ slice_index name.old k }
{
    for _ in 0..TRIES {
        let mut bytes = [0u8; CHOSEN];
        rt.fill_bytes(&mut bytes)?;
        put_letters(name, &bytes);
        match create_new(rt, name) {
            Err(why) if why.kind() == ErrorKind::AlreadyExists => {}
            made => return made,
        }
    }
    Err(io::Error::from_raw_os_error(TAKEN))
}
