// What is asked of the table: its saved form, its loads, one link, its circuits, its picture, the circuits to a node, its nodes.

ghost use Rattle.std.specs.Prelude.{◌*◌, length};
ghost use Rattle.limits.specs.Limits.{most_nodes};
ghost use Rattle.buffer.specs.Put.{Printed};
ghost use Rattle.form.specs.Form.{form_of, longest_form};
ghost use Rattle.load.specs.Load.{loads};
ghost use Rattle.link_question.specs.Link.{link_of};
ghost use Rattle.inventory.specs.Lines.{form_line, form_room, load_line, load_room, link_line, link_room, circuits_text, circuits_room};
ghost use Rattle.row_lines.specs.Lines.{from_room};
ghost use Rattle.node_lines.specs.Lines.{to_text, nodes_text, nodes_room};
ghost use Rattle.buffer.specs.Appended.{Appended};
ghost use Rattle.picture.specs.Room.{picture_room};
ghost use Rattle.planner.specs.Asks.{Asks, FileWritten};

use form::LONGEST_FORM;
use load::MOST_LOADS;
use ring::RingTable;

// `write`
pub fn answer_write(table: RingTable, out: &mut [u8], at: usize) -> usize
    requires { Asks table out.old at }
    ensures { Printed (form_room longest_form) out.old at (form_line (form_of table)) out.new result }
{
    let mut form = [0u8; LONGEST_FORM];
    let length = saved_forms::form_of(table, &mut form);
    inventory::put_form(out, at, &form[..length])
}

// `write @PATH`
pub fn answer_write_file(
    rt: &HostRuntime,
    table: RingTable,
    path: &[u8],
    out: &mut [u8],
    at: usize,
) -> usize
    requires { Asks table out.old at }
    ensures { FileWritten (length (form_of table)) out.old at out.new result }
{
    let mut form = [0u8; LONGEST_FORM];
    let length = saved_forms::form_of(table, &mut form);
    if files::write_file(rt, path, &form[..length]) {
        return inventory::put_length(out, at, length as u32);
    }
    buffer::put_text(out, at, b"write failed\n")
}

// `load`
pub fn answer_load(table: RingTable, out: &mut [u8], at: usize) -> usize
    requires { Asks table out.old at }
    ensures { Printed (load_room (2 * most_nodes)) out.old at (load_line (loads table.nodes table.channels)) out.new result }
{
    let mut loads = [0u8; MOST_LOADS];
    let _ = load::report_valid(table, &mut loads);
    let count = 2 * table.nodes as usize;
    inventory::put_loads(out, at, &loads[..count])
}

// `link LINK WAVELENGTH DIRECTION`
pub fn answer_link(
    table: RingTable,
    link: u64,
    wavelength: u64,
    direction: u64,
    out: &mut [u8],
    at: usize,
) -> usize
    requires { Asks table out.old at }
    ensures { Printed link_room out.old at (link_line (link_of table link wavelength direction)) out.new result }
{
    let answer = link_question::link_of(table, link, wavelength, direction);
    inventory::put_link(out, at, answer)
}

// `circuits`
pub fn answer_circuits(table: RingTable, out: &mut [u8], at: usize) -> usize
    requires { Asks table out.old at }
    ensures { Printed circuits_room out.old at (circuits_text table.channels) out.new result }
{
    inventory::put_circuits(out, at, table.channels)
}

// `show`
pub fn answer_show(table: RingTable, out: &mut [u8], at: usize) -> usize
    requires { Asks table out.old at }
    ensures { Appended picture_room out.old at out.new result }
{
    picture::put_picture(out, at, table)
}

// `to NODE`
pub fn answer_to(table: RingTable, node: u8, out: &mut [u8], at: usize) -> usize
    requires { Asks table out.old at }
    ensures { Printed from_room out.old at (to_text table.nodes table.channels node) out.new result }
{
    node_lines::put_to(out, at, table, node)
}

// `nodes`
pub fn answer_nodes(table: RingTable, out: &mut [u8], at: usize) -> usize
    requires { Asks table out.old at }
    ensures { Printed nodes_room out.old at (nodes_text table.nodes table.ports table.channels) out.new result }
{
    node_lines::put_nodes(out, at, table)
}
