// A row of the picture: what it is about, in eleven bytes, and its numbers in columns.

ghost use Rattle.std.specs.Prelude.{◌+◌, ◌≤◌, ◌<◌, length};
ghost use Rattle.buffer.specs.Appended.{Appended};
ghost use Rattle.picture.specs.Room.{row_room};
ghost use Rattle.picture.specs.Drawn.{Drawn};

use ring::RingTable;
use row_numbers::Row;
use slots::Slot;

// The bytes of what a row is about, its name.
pub const NAME_ROOM: usize = 11;

const FROM: [u8; NAME_ROOM] = *b"link   from";

const TO: [u8; NAME_ROOM] = *b"  w   p  to";

const CLOCKWISE: [u8; NAME_ROOM] = *b"load   >   ";

const COUNTERCLOCKWISE: [u8; NAME_ROOM] = *b"load   <   ";

const NODES: [u8; NAME_ROOM] = *b"node       ";

const SENDERS: [u8; NAME_ROOM] = *b"tx free    ";

const RECEIVERS: [u8; NAME_ROOM] = *b"rx free    ";

// The last digit of a number.
fn last_digit(n: usize) -> u8 {
    b'0' + (n % 10) as u8
}

// The digit of a number at a unit, or a space where the number is below it.
fn digit(n: usize, unit: usize) -> u8
    requires { 0 < unit }
{
    if n < unit { b' ' } else { last_digit(n / unit) }
}

// The way round of a place.
fn way(place: usize) -> u8 {
    if place % 2 == 0 { b'>' } else { b'<' }
}

// Whether two circuits share a place, one is alone there, or none is.
fn sharing(slot: Slot) -> u8 {
    match slot {
        Slot::Unlit => b' ',
        Slot::Alone(_) => b'-',
        Slot::Shared(_, _) => b'=',
    }
}

// The name of a place: its wavelength and its number, which way round it is and whether it is shared.
fn place_name(place: usize, slot: Slot) -> [u8; NAME_ROOM] {
    [
        b' ',
        digit(place / 2, 10),
        last_digit(place / 2),
        b' ',
        digit(place, 100),
        digit(place, 10),
        last_digit(place),
        b' ',
        way(place),
        b' ',
        sharing(slot),
    ]
}

// The name of a row.
fn name_of(table: RingTable, row: Row) -> [u8; NAME_ROOM] {
    match row {
        Row::From => FROM,
        Row::To => TO,
        Row::Place(place) => place_name(place, channels::slot_at(table.channels, place)),
        Row::Clockwise => CLOCKWISE,
        Row::Counterclockwise => COUNTERCLOCKWISE,
        Row::Nodes => NODES,
        Row::Senders => SENDERS,
        Row::Receivers => RECEIVERS,
    }
}

// Whether a row is that of an unlit place.
fn is_unlit(table: RingTable, row: Row) -> bool {
    match row {
        Row::Place(place) => channels::slot_at(table.channels, place).is_unlit(),
        _ => false,
    }
}

// A row.
pub fn put_row(out: &mut [u8], at: usize, table: RingTable, row: Row, width: usize) -> usize
    requires { Drawn table width × (at + row_room ≤ length out.old) }
    ensures { Appended row_room out.old at out.new result }
{
    let name = name_of(table, row);
    let next = buffer::put_text(out, at, &name);
    if is_unlit(table, row) {
        return buffer::put_text(out, next, b" unlit\n");
    }
    let numbers = row_numbers::numbers_of(table, row);
    columns::put_columns(out, next, numbers, table.nodes as usize, width)
}
