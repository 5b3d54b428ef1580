// What the system knows of a file by its name.

ghost use Rattle.std.specs.Prelude.{◌≡◌, IfOk};

use std::os::unix::fs::MetadataExt;
use std::{fs, io, str};

// The bits of a mode that say who may do what.
const PERMISSIONS: u32 = 0o777;

// The system's number for an argument that is none: a name with a 0 in it.
const INVALID: i32 = 22;

// And for bytes that are no text: a name that is not UTF-8, which std does not take.
const NO_TEXT: i32 = 84;

// What the system knows of a file: whether it is a regular one, who may use it, and whose it is.
#[derive(Clone, Copy)]
pub struct About {
    pub regular: bool,
    pub permissions: u32,
    pub owner: u32,
    pub group: u32,
}

// The bytes of a name up to its first 0.
fn before_zero(name: &[u8]) -> &[u8] {
    match name.iter().position(|byte| *byte == 0) {
        Some(end) => &name[..end],
        None => name,
    }
}

// A name as std takes it, byte for byte: one with a 0 is refused, and one that is not UTF-8.
pub fn text_of(name: &[u8]) -> io::Result<&str>
    ensures { IfOk result (λ text. text.now ≡ name.now) }
{
    if name.contains(&0) {
        return Err(io::Error::from_raw_os_error(INVALID));
    }
    match str::from_utf8(name) {
        Ok(text) => Ok(text),
        Err(_) => Err(io::Error::from_raw_os_error(NO_TEXT)),
    }
}

// Looks a file up, through links. A name ends at its first 0; who opens a file by a name with a 0 in it is refused.
pub fn look_up(rt: &HostRuntime, path: &[u8]) -> io::Result<About> {
    let told = fs::metadata(rt, text_of(before_zero(path))?)?;
    Ok(About {
        regular: told.is_file(),
        permissions: told.mode() & PERMISSIONS,
        owner: told.uid(),
        group: told.gid(),
    })
}
