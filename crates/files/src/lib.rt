// A file read whole, and one written whole: the new file takes the old one's name only when all of it has reached the disk, and it is written
// only when that has too. What fails is said in a line on standard error.

#![tactic(auto)]

mod about;
mod failure;
mod fresh;

ghost use Rattle.std.specs.Prelude.{◌≡◌, ◌≤◌, true, length, IfOk};
ghost use Rattle.std.specs.Counts.{IsPrefixLen};
ghost use Rattle.files.specs.Files.{Within, IsPath, longest_name};

use about::{About, text_of};
use failure::{LINE_ROOM, Words};
use std::fs::{File, OpenOptions, Permissions};
use std::io::{ErrorKind, Read, Write};
use std::os::unix::fs::{PermissionsExt, fchown};
use std::{fs, io};

// The bytes of the longest name that the system takes: with the 0 after them it has 4,096.
const LONGEST_NAME: usize = 4095;

// The bytes of the ending of a new file's name, `.ringplan-XXXXXX`.
const ENDING: usize = 16;

// The longest path of a file to write: the new file's name has its ending too.
const LONGEST_PATH: usize = LONGEST_NAME - ENDING;

// Who may use a first file, before the user's own narrowing: its owner, and its group to read it.
const FIRST: u32 = 0o640;

// That something failed, which a line on standard error says.
#[derive(Clone, Copy)]
struct Said;

// Writes to standard error. Where nobody hears it, nothing is said.
fn put(rt: &HostRuntime, text: &[u8]) {
    let _ = rt.stderr().write_all(text);
}

// Says on standard error what failed, and why, where a call failed.
fn say(rt: &HostRuntime, path: &[u8], what: &[u8], why: Option<io::Error>) {
    let mut line = [0u8; LINE_ROOM];
    let end = failure::put_line(&mut line, path, what);
    put(rt, &line[..end]);
    if let Some(error) = why {
        put(rt, b": ");
        put(rt, Words::of(error).text());
    }
    put(rt, b"\n");
}

// Says on standard error what is wrong, where no call failed.
fn refuse(rt: &HostRuntime, path: &[u8], what: &[u8]) -> Said {
    say(rt, path, what, None);
    Said
}

// What a call gave. Where it failed, it says so.
fn or_say<T>(rt: &HostRuntime, path: &[u8], what: &[u8], done: io::Result<T>) -> Result<T, Said> {
    match done {
        Ok(value) => Ok(value),
        Err(why) => {
            say(rt, path, what, Some(why));
            Err(Said)
        }
    }
}

// Reads until the lent bytes are full or the file ends, and gives how many were read. Where a read fails, it says so.
fn read_from(rt: &HostRuntime, path: &[u8], mut file: File, out: &mut [u8]) -> Result<usize, Said>
    ensures { IfOk result (λ count. count ≤ length out.new) }
{
    let mut done: usize = 0;
    // As far as each read brings it.
    while done < out.len() {
        match file.read(&mut out[done..]) {
            Ok(0) => break,
            Ok(count) => done += count,
            Err(why) => {
                say(rt, path, b": not read: reading it", Some(why));
                return Err(Said);
            }
        }
    }
    Ok(done)
}

// Opens a file that is there to read it.
fn open_read(rt: &HostRuntime, path: &[u8]) -> io::Result<File> {
    File::open(rt, text_of(path)?)
}

// Opens a regular file to read it. What is none is not opened: a pipe would be waited for.
fn open_regular(rt: &HostRuntime, path: &[u8]) -> Result<File, Said> {
    if LONGEST_NAME < path.len() {
        return Err(refuse(rt, path, b": not read: its name is too long"));
    }
    let about = or_say(
        rt,
        path,
        b": not read: looking it up",
        about::look_up(rt, path),
    )?;
    if !about.regular {
        return Err(refuse(rt, path, b": not read: it is not a regular file"));
    }
    or_say(rt, path, b": not read: opening it", open_read(rt, path))
}

// Reads a file to its end, or as many of its bytes as were lent, and gives how many; none where it cannot be opened or read.
pub fn read_file(rt: &HostRuntime, path: &[u8], out: &mut [u8]) -> Option<usize>
    ensures { Within result out.new }
{
    let file = open_regular(rt, path).ok()?;
    read_from(rt, path, file, out).ok()
}

// Opens a file that is there to write it, and leaves it as it is.
fn open_update(rt: &HostRuntime, path: &[u8]) -> io::Result<File> {
    OpenOptions::new()
        .read(true)
        .write(true)
        .open(rt, text_of(path)?)
}

// The old file, if there is one. A new file may take its name if it is a regular one that may be written.
fn find_old(rt: &HostRuntime, path: &[u8]) -> Result<Option<About>, Said> {
    let old = match about::look_up(rt, path) {
        Err(why) if why.kind() == ErrorKind::NotFound => return Ok(None),
        found => or_say(rt, path, b": not written: looking it up", found)?,
    };
    if !old.regular {
        return Err(refuse(rt, path, b": not written: it is not a regular file"));
    }
    or_say(
        rt,
        path,
        b": not written: opening it",
        open_update(rt, path),
    )?;
    Ok(Some(old))
}

// The bytes of a path up to its last `/`, that one included.
fn folder_end(path: &[u8]) -> usize
    ensures { IsPrefixLen result path.now }
{
    match path.iter().rposition(|byte| *byte == b'/') {
        Some(at) => at + 1,
        None => 0,
    }
}

// Opens the folder of a file and syncs it, so that one which cannot be synced is found while the old file still stands.
fn open_folder(rt: &HostRuntime, path: &[u8]) -> Result<File, Said> {
    let end = folder_end(path);
    let opened = if end == 0 {
        open_read(rt, b".")
    } else {
        open_read(rt, &path[..end])
    };
    let folder = or_say(rt, path, b": not written: opening its folder", opened)?;
    or_say(
        rt,
        path,
        b": not written: syncing its folder",
        folder.sync_all(),
    )?;
    Ok(folder)
}

// A name for a new file beside the old one: with `.ringplan-` and six bytes, which are chosen later, after the path.
fn name_beside(path: &[u8], name: &mut [u8]) -> usize
    requires { IsPath path.now × (length name.old ≡ longest_name) }
    ensures { IsPrefixLen result name.new }
{
    let end = buffer::put_text(name, 0, path);
    buffer::put_text(name, end, b".ringplan-XXXXXX")
}

// Removes a file.
fn remove(rt: &HostRuntime, name: &[u8]) -> io::Result<()> {
    fs::remove_file(rt, text_of(name)?)
}

// Makes a file as the system makes one for this user, unless there is one with the name.
fn create(rt: &HostRuntime, name: &[u8]) -> io::Result<File> {
    OpenOptions::new()
        .write(true)
        .create_new(true)
        .open(rt, text_of(name)?)
}

// A file as the system makes one for this user, made and removed: no call says how the user narrows the rights of new files.
fn made_empty(rt: &HostRuntime, name: &mut [u8]) -> io::Result<About> {
    drop(fresh::create(rt, name)?);
    remove(rt, name)?;
    drop(create(rt, name)?);
    let made = about::look_up(rt, name);
    remove(rt, name)?;
    made
}

// What a first file is like.
fn first_like(rt: &HostRuntime, path: &[u8]) -> Result<About, Said>
    requires { IsPath path.now }
{
    let mut name = [0u8; LONGEST_NAME];
    let end = name_beside(path, &mut name);
    or_say(
        rt,
        path,
        b": not written: making a file beside it",
        made_empty(rt, &mut name[..end]),
    )
}

// Gives a file the owner of another, where that is allowed, and the group.
fn give_owner(file: &File, like: About) -> io::Result<()> {
    match fchown(file, Some(like.owner), Some(like.group)) {
        Ok(()) => Ok(()),
        Err(_) => fchown(file, None, Some(like.group)),
    }
}

// Gives a new file its owner, group and mode. A file system that has none of these refuses, and makes every file like the other.
fn give_rights(
    rt: &HostRuntime,
    name: &[u8],
    file: &File,
    like: About,
    mode: u32,
) -> io::Result<()> {
    let owned = give_owner(file, like);
    let narrowed = file.set_permissions(Permissions::from_mode(mode));
    let Err(why) = narrowed.and(owned) else {
        return Ok(());
    };
    let new = about::look_up(rt, name)?;
    let alike = new.permissions == mode || new.permissions == like.permissions;
    if new.group == like.group && alike {
        return Ok(());
    }
    Err(why)
}

// Fills the new file and has it reach the disk, with the rights that it is to have.
fn fill(
    rt: &HostRuntime,
    path: &[u8],
    name: &[u8],
    file: &mut File,
    bytes: &[u8],
    like: About,
    mode: u32,
) -> Result<(), Said> {
    or_say(
        rt,
        path,
        b": not written: writing the new file",
        file.write_all(bytes),
    )?;
    or_say(
        rt,
        path,
        b": not written: keeping its group and mode",
        give_rights(rt, name, file, like, mode),
    )?;
    or_say(
        rt,
        path,
        b": not written: syncing the new file",
        file.sync_all(),
    )
}

// Makes the new file whole and closes it. It has reached the disk before, and std keeps to itself what closing it answers.
fn make(
    rt: &HostRuntime,
    path: &[u8],
    name: &[u8],
    mut file: File,
    bytes: &[u8],
    like: About,
    mode: u32,
) -> Result<(), Said> {
    fill(rt, path, name, &mut file, bytes, like, mode)
}

// Gives a file another name.
fn rename(rt: &HostRuntime, name: &[u8], path: &[u8]) -> io::Result<()> {
    fs::rename(rt, text_of(name)?, text_of(path)?)
}

// Has the new file take the name, and the name reach the disk. A new file that cannot take it is removed.
fn give_name(rt: &HostRuntime, path: &[u8], name: &[u8], folder: &File) -> Result<(), Said> {
    if let Err(why) = rename(rt, name, path) {
        say(
            rt,
            path,
            b": not written: giving the new file its name",
            Some(why),
        );
        let _ = remove(rt, name);
        return Err(Said);
    }
    or_say(
        rt,
        path,
        b": not written: it has the new form, which a power cut may still take back: syncing its folder",
        folder.sync_all(),
    )
}

// Replaces a file, or makes a first one, by a new file of this name, like another and with this mode. What fails before the new file has the
// name leaves the old one, and no new one.
fn replace_by(
    rt: &HostRuntime,
    name: &mut [u8],
    path: &[u8],
    bytes: &[u8],
    like: About,
    mode: u32,
    folder: &File,
) -> Result<(), Said> {
    let file = or_say(
        rt,
        path,
        b": not written: making a file beside it",
        fresh::create(rt, name),
    )?;
    if make(rt, path, name, file, bytes, like, mode).is_err() {
        let _ = remove(rt, name);
        return Err(Said);
    }
    give_name(rt, path, name, folder)
}

// The same by a new file with a name that no other run has.
fn replace(
    rt: &HostRuntime,
    path: &[u8],
    bytes: &[u8],
    like: About,
    mode: u32,
    folder: &File,
) -> Result<(), Said>
    requires { IsPath path.now }
{
    let mut name = [0u8; LONGEST_NAME];
    let end = name_beside(path, &mut name);
    replace_by(rt, &mut name[..end], path, bytes, like, mode, folder)
}

// The same where the path has a byte and is not too long, with the rights that the new file is to have: those of the old file, or for a first
// one no more than its owner's and its group's to read it.
fn write_named(rt: &HostRuntime, path: &[u8], bytes: &[u8]) -> Result<(), Said>
    requires { IsPath path.now }
{
    let old = find_old(rt, path)?;
    let folder = open_folder(rt, path)?;
    match old {
        Some(old) => replace(rt, path, bytes, old, old.permissions, &folder),
        None => {
            let like = first_like(rt, path)?;
            replace(rt, path, bytes, like, like.permissions & FIRST, &folder)
        }
    }
}

// Writes a file of some bytes: beside it a new one is made, with a name that no other run has, which takes the name when it is whole.
// Where it is not written, the old file is as it was and no new one is left, unless its folder could not be synced at the end.
pub fn write_file(rt: &HostRuntime, path: &[u8], bytes: &[u8]) -> bool
    ensures { result ≡ true → IsPath path.now }
{
    if path.is_empty() {
        say(rt, path, b": not written: it has no name", None);
        return false;
    }
    if LONGEST_PATH < path.len() {
        say(rt, path, b": not written: its name is too long", None);
        return false;
    }
    write_named(rt, path, bytes).is_ok()
}
