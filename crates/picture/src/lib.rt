// A picture of a ring in text, for people: a row for each wavelength each way round, a column for each link, and in each cell the circuit
// that runs there; then the load of each link, and the free ports of each node.

#![tactic(auto)]

mod row;

ghost use Rattle.std.specs.Prelude.{◌≡◌, true, ◌+◌, ◌*◌, ◌≤◌, length};
ghost use Rattle.limits.specs.Limits.{place_count};
ghost use Rattle.ring.specs.Table.{meets_rules};
ghost use Rattle.buffer.specs.Appended.{Appended};
ghost use Rattle.text.specs.Decimal.{most_digits};
ghost use Rattle.picture.specs.Room.{title_room, row_room, rows_room, legend_room, picture_room};
ghost use Rattle.picture.specs.Drawn.{Drawn};

use columns::COLUMNS_ROOM;
use limits::PLACE_COUNT;
use ring::RingTable;
use row::NAME_ROOM;
use row_numbers::Row;
use slots::Slot;

// The bytes of the title at most: its words, and three numbers.
const TITLE_ROOM: usize = 79;

// The bytes of the legend.
const LEGEND_ROOM: usize = 149;

// The rows that show no place: two of links, two of loads, three of ports.
const NAMED_ROWS: usize = 7;

// The most bytes of a row: its name and its columns.
const ROW_ROOM: usize = NAME_ROOM + COLUMNS_ROOM;

// The most bytes of a picture.
pub const PICTURE_ROOM: usize = TITLE_ROOM + (NAMED_ROWS + PLACE_COUNT) * ROW_ROOM + LEGEND_ROOM;

// The highest number at a place: where two share it, the second's.
fn highest_at(slot: Slot) -> u32 {
    match slot {
        Slot::Unlit => 0,
        Slot::Alone(a) => a.number,
        Slot::Shared(_, b) => b.number,
    }
}

// The width of a column: the digits of the highest circuit number, and at least two, for links, loads and ports.
fn column_width(table: RingTable) -> usize
    ensures { result ≤ most_digits }
{
    let highest = table
        .channels
        .iter()
        .map(|channel| highest_at(channel.slot))
        .fold(10, |highest, number| number.max(highest));
    columns::digits(highest)
}

// What ring it is.
fn put_title(out: &mut [u8], at: usize, table: RingTable) -> usize
    requires { at + title_room ≤ length out.old }
    ensures { Appended title_room out.old at out.new result }
{
    let listed = circuit_lists::circuits_of(table.channels);
    print::put_filled(
        out,
        at,
        b"ring of # nodes, # wavelengths each way, # circuits\n",
        table.nodes as u32,
        table.wavelengths() as u32,
        listed.count as u32,
        0,
    )
}

// The rows above those of the places: where the links begin and end.
const UPPER: [Row; 2] = [Row::From, Row::To];

// The rows below them: the loads and the ports.
const LOWER: [Row; 5] = [
    Row::Clockwise,
    Row::Counterclockwise,
    Row::Nodes,
    Row::Senders,
    Row::Receivers,
];

// Some rows.
fn put_some(out: &mut [u8], at: usize, table: RingTable, rows: &[Row], width: usize) -> usize
    requires { Drawn table width × (at + row_room * length rows.now ≤ length out.old) }
    ensures { Appended (row_room * length rows.now) out.old at out.new result }
{
    let mut next = at;
    for row in rows {
        next = row::put_row(out, next, table, *row, width);
    }
    next
}

// The rows of the places that may be lit.
fn put_places(out: &mut [u8], at: usize, table: RingTable, width: usize) -> usize
    requires { Drawn table width × (at + row_room * place_count ≤ length out.old) }
    ensures { Appended (row_room * place_count) out.old at out.new result }
{
    let mut next = at;
    for place in 0..ports::place_limit(table.ports) {
        next = row::put_row(out, next, table, Row::Place(place), width);
    }
    next
}

// The rows.
fn put_rows(out: &mut [u8], at: usize, table: RingTable, width: usize) -> usize
    requires { Drawn table width × (at + rows_room ≤ length out.old) }
    ensures { Appended rows_room out.old at out.new result }
{
    let next = put_some(out, at, table, &UPPER, width);
    let next = put_places(out, next, table, width);
    put_some(out, next, table, &LOWER, width)
}

// What the signs mean.
fn put_legend(out: &mut [u8], at: usize) -> usize
    requires { at + legend_room ≤ length out.old }
    ensures { Appended legend_room out.old at out.new result }
{
    buffer::put_text(
        out,
        at,
        b"> clockwise, < counterclockwise; = two share, - one alone, . nothing runs\nw wavelength, p place; tx, rx: free transmitters and receivers of the node\n",
    )
}

// The picture of a ring.
pub fn put_picture(out: &mut [u8], at: usize, table: RingTable) -> usize
    requires { (meets_rules table ≡ true) × (at + picture_room ≤ length out.old) }
    ensures { Appended picture_room out.old at out.new result }
{
    let width = column_width(table);
    let next = put_title(out, at, table);
    let next = put_rows(out, next, table, width);
    put_legend(out, next)
}
