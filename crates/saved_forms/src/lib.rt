// Saved forms: read into the desk, whose circuits stand in lent keys and rests, and written from a table.

#![tactic(auto)]

ghost use Rattle.std.specs.Prelude.{◌≡◌, true, ◌*◌, ◌≤◌, length};
ghost use Rattle.ring.specs.Table.{meets_rules};
ghost use Rattle.form.specs.Form.{longest_form};
ghost use Rattle.desk.specs.Desk.{desk_of};
ghost use Rattle.planner_lines.specs.Line.{read_form};
ghost use Rattle.planner_lines.specs.Ran.{CanAnswer, LineAnswered, FileAnswered};
ghost use Rattle.saved_forms.specs.Saved.{FormIn, WordRead};

use commands::MOST_READ;
use desk::Ran;
use ring::RingTable;
use roster::Heading;

// Writes the form of a table and gives its length: the bytes of the longest form have room for every one.
pub fn form_of(table: RingTable, form: &mut [u8]) -> usize
    requires { (meets_rules table ≡ true) × (length form.old ≡ longest_form) }
    ensures { FormIn table form.new result }
{
    match encode::write_valid(table, form) {
        Ok(length) => length,
        Err(_) => 0,
    }
}

// The bytes of a word, and how many: those of its digits, or none of `-`.
pub fn read_word(word: &[u8], form: &mut [u8]) -> Option<usize>
    requires { length word.now ≤ 2 * length form.old }
    ensures { WordRead word.now form.new result }
{
    if word == b"-".as_slice() {
        return Some(0);
    }
    hex_text::read_hex(word, form)
}

// Reads a form: where it is accepted, the keys and the rests hold its table.
pub fn take_form(
    desk: Option<Heading>,
    keys: &mut [u64],
    rests: &mut [u64],
    form: &[u8],
    out: &mut [u8],
    at: usize,
) -> Ran
    requires { CanAnswer desk keys.old rests.old out.old at }
    ensures { LineAnswered (read_form (desk_of desk keys.old rests.old) form.now) out.old at keys.new rests.new out.new result }
{
    let read = decode::read(form);
    let next = inventory::put_read(
        out,
        at,
        read.table.nodes,
        read.table.wavelengths(),
        read.verdict,
    );
    let desk = desk::hold_accepted(desk, keys, rests, read);
    Ran { desk, next }
}

// `read @PATH`
pub fn run_read_file(
    rt: &HostRuntime,
    desk: Option<Heading>,
    keys: &mut [u64],
    rests: &mut [u64],
    path: &[u8],
    out: &mut [u8],
    at: usize,
) -> Ran
    requires { CanAnswer desk keys.old rests.old out.old at }
    ensures { FileAnswered (desk_of desk keys.old rests.old) out.old at keys.new rests.new out.new result }
{
    let mut form = [0u8; MOST_READ];
    match files::read_file(rt, path, &mut form) {
        Some(count) => take_form(desk, keys, rests, &form[..count], out, at),
        None => {
            let next = buffer::put_text(out, at, b"read failed\n");
            Ran { desk, next }
        }
    }
}
