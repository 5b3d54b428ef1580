// Numbers in columns: a cell is a number or a dot at the right of its column, and a row has one for each link or node. Nothing here knows
// a ring.

#![tactic(auto)]

ghost use Rattle.std.specs.Prelude.{◌≡◌, ◌+◌, ◌≤◌, length};
ghost use Rattle.limits.specs.Limits.{most_nodes};
ghost use Rattle.text.specs.Decimal.{decimal, most_digits};
ghost use Rattle.buffer.specs.Appended.{Appended};
ghost use Rattle.columns.specs.Columns.{cell_room, cells_room, columns_room};

use limits::PORT_FIELDS;

// The digits of a number of 32 bits at most.
const MOST_DIGITS: usize = 10;

// The most bytes of a cell: the space that parts its column from the one before, and the digits.
const CELL_ROOM: usize = 1 + MOST_DIGITS;

// The most bytes of a row's columns: a cell for each link or node, and the line end.
pub const COLUMNS_ROOM: usize = PORT_FIELDS * CELL_ROOM + 1;

// How many digits a number has.
pub fn digits(n: u32) -> usize
    ensures { (result ≡ length (decimal n)) × (result ≤ most_digits) }
{
    n.checked_ilog10().unwrap_or(0) as usize + 1
}

// The spaces before what takes so many bytes of a column, and the one that parts the column from the one before.
fn margin(width: usize, taken: usize) -> usize
    requires { (width ≤ most_digits) × (taken ≤ most_digits) }
    ensures { result + taken ≤ cell_room }
{
    width.saturating_sub(taken) + 1
}

// Spaces.
fn put_spaces(out: &mut [u8], at: usize, count: usize) -> usize
    requires { at + count ≤ length out.old }
    ensures { Appended count out.old at out.new result }
{
    let end = at + count;
    out[at..end].fill(b' ');
    end
}

// A number.
fn put_number(out: &mut [u8], at: usize, width: usize, n: u32) -> usize
    requires { (width ≤ most_digits) × (at + cell_room ≤ length out.old) }
    ensures { Appended cell_room out.old at out.new result }
{
    let spaces = margin(width, digits(n));
    let next = put_spaces(out, at, spaces);
    text::put_number(out, next, n)
}

// A number, or a dot for one that no 32 bits hold: what stands for no circuit.
fn put_cell(out: &mut [u8], at: usize, width: usize, n: u64) -> usize
    requires { (width ≤ most_digits) × (at + cell_room ≤ length out.old) }
    ensures { Appended cell_room out.old at out.new result }
{
    match u32::try_from(n) {
        Ok(n) => put_number(out, at, width, n),
        Err(_) => {
            let next = put_spaces(out, at, width);
            buffer::put_byte(out, next, b'.')
        }
    }
}

// A cell for each number.
fn put_cells(out: &mut [u8], at: usize, numbers: &[u64], width: usize) -> usize
    requires { (width ≤ most_digits) × (length numbers.now ≤ most_nodes) × (at + cells_room ≤ length out.old) }
    ensures { Appended cells_room out.old at out.new result }
{
    let mut next = at;
    for number in numbers {
        next = put_cell(out, next, width, *number);
    }
    next
}

// The cells of a row, and the line end.
pub fn put_columns(
    out: &mut [u8],
    at: usize,
    numbers: [u64; PORT_FIELDS],
    count: usize,
    width: usize,
) -> usize
    requires { (width ≤ most_digits) × (count ≤ most_nodes) × (at + columns_room ≤ length out.old) }
    ensures { Appended columns_room out.old at out.new result }
{
    let next = put_cells(out, at, &numbers[..count], width);
    buffer::put_byte(out, next, b'\n')
}
