// What is on a ring, as the lines that answer for it: its saved form, the load of each link, the circuit on one link, every circuit.

#![tactic(auto)]

ghost use Rattle.std.specs.Prelude.{◌+◌, ◌≤◌, length};
ghost use Rattle.slots.specs.Slot.{held};
ghost use Rattle.form.specs.Form.{longest_form};
ghost use Rattle.buffer.specs.Put.{Printed};
ghost use Rattle.text.specs.Bytes.{bytes};
ghost use Rattle.print.specs.Answers.{piece};
ghost use Rattle.inventory.specs.Lines.{read_line, read_room, form_line, form_room, length_line, length_room, numbers_line, number_room, numbers_room, load_line, load_room, link_line, link_room, circuit_line, circuit_line_room, circuit_lines, place_room, place_lines, places_room, circuits_text, circuits_room};

use channels::Channel;
use lightpath::Circuit;
use limits::PLACE_COUNT;
use link_question::NO_CIRCUIT;
use refusals::Verdict;
use slots::Slot;

// `read N wavelengths W`, or `read refused R`.
pub fn put_read(out: &mut [u8], at: usize, nodes: u8, wavelengths: u16, verdict: Verdict) -> usize
    requires { at + read_room ≤ length out.old }
    ensures { Printed read_room out.old at (read_line nodes wavelengths verdict) out.new result }
{
    match verdict {
        Ok(()) => print::put_filled(
            out,
            at,
            b"read # wavelengths #\n",
            nodes as u32,
            wavelengths as u32,
            0,
            0,
        ),
        Err(refusal) => print::put_refusal(out, at, b"read refused #\n", refusal),
    }
}

// `write LENGTH HEX`.
pub fn put_form(out: &mut [u8], at: usize, form: &[u8]) -> usize
    requires { (at + form_room longest_form ≤ length out.old) × (length form.now ≤ longest_form) }
    ensures { Printed (form_room longest_form) out.old at (form_line form.now) out.new result }
{
    let next = print::put_filled(out, at, b"write # ", form.len() as u32, 0, 0, 0);
    let next = hex_text::put_hex(out, next, form);
    buffer::put_byte(out, next, b'\n')
}

// `write LENGTH`.
pub fn put_length(out: &mut [u8], at: usize, count: u32) -> usize
    requires { at + length_room ≤ length out.old }
    ensures { Printed length_room out.old at (length_line count) out.new result }
{
    print::put_filled(out, at, b"write #\n", count, 0, 0, 0)
}

// A number of `load`.
fn put_load(out: &mut [u8], at: usize, load: u8) -> usize
    requires { at + number_room ≤ length out.old }
    ensures { Printed number_room out.old at (piece (bytes " ") load) out.new result }
{
    print::put_filled(out, at, b" #", load as u32, 0, 0, 0)
}

// The loads, and the line end.
fn put_numbers(out: &mut [u8], at: usize, loads: &[u8]) -> usize
    requires { at + numbers_room (length loads.now) ≤ length out.old }
    ensures { Printed (numbers_room (length loads.now)) out.old at (numbers_line loads.now) out.new result }
{
    let mut next = at;
    for load in loads {
        next = put_load(out, next, *load);
    }
    buffer::put_byte(out, next, b'\n')
}

// `load` and the loads.
pub fn put_loads(out: &mut [u8], at: usize, loads: &[u8]) -> usize
    requires { at + load_room (length loads.now) ≤ length out.old }
    ensures { Printed (load_room (length loads.now)) out.old at (load_line loads.now) out.new result }
{
    let next = buffer::put_text(out, at, b"load");
    put_numbers(out, next, loads)
}

// `link circuit NUMBER`, `link none` or `link refused R`, by the question's answer.
pub fn put_link(out: &mut [u8], at: usize, answer: u64) -> usize
    requires { at + link_room ≤ length out.old }
    ensures { Printed link_room out.old at (link_line answer) out.new result }
{
    if answer < NO_CIRCUIT {
        return print::put_filled(out, at, b"link circuit #\n", answer as u32, 0, 0, 0);
    }
    if answer == NO_CIRCUIT {
        return buffer::put_text(out, at, b"link none\n");
    }
    print::put_filled(out, at, b"link refused #\n", (answer % 256) as u32, 0, 0, 0)
}

// `circuit NUMBER from SOURCE to DESTINATION remark REMARK account ACCOUNT place PLACE`.
fn put_circuit(out: &mut [u8], at: usize, circuit: Circuit, place: u32) -> usize
    requires { at + circuit_line_room ≤ length out.old }
    ensures { Printed circuit_line_room out.old at (circuit_line place circuit) out.new result }
{
    let next = print::put_filled(
        out,
        at,
        b"circuit # from # to # remark #",
        circuit.number,
        circuit.source as u32,
        circuit.destination as u32,
        circuit.remark as u32,
    );
    print::put_filled(
        out,
        next,
        b" account # place #\n",
        circuit.account,
        place,
        0,
        0,
    )
}

// The lines of the circuits of a place, the lower number first.
fn put_slot(out: &mut [u8], at: usize, slot: Slot, place: u32) -> usize
    requires { at + place_room ≤ length out.old }
    ensures { Printed place_room out.old at (circuit_lines place (held slot)) out.new result }
{
    match slot {
        Slot::Unlit => at,
        Slot::Alone(a) => put_circuit(out, at, a, place),
        Slot::Shared(a, b) => {
            let next = put_circuit(out, at, a, place);
            put_circuit(out, next, b, place)
        }
    }
}

// The lines of all circuits by rising place.
fn put_places(out: &mut [u8], at: usize, channels: [Channel; PLACE_COUNT]) -> usize
    requires { at + places_room ≤ length out.old }
    ensures { Printed places_room out.old at (place_lines 0 channels) out.new result }
{
    let mut next = at;
    for (p, channel) in channels.iter().enumerate() {
        next = put_slot(out, next, channel.slot, p as u32);
    }
    next
}

// `circuits COUNT`, and a line for each circuit by rising place.
pub fn put_circuits(out: &mut [u8], at: usize, channels: [Channel; PLACE_COUNT]) -> usize
    requires { at + circuits_room ≤ length out.old }
    ensures { Printed circuits_room out.old at (circuits_text channels) out.new result }
{
    let listed = circuit_lists::circuits_of(channels);
    let next = print::put_filled(out, at, b"circuits #\n", listed.count as u32, 0, 0, 0);
    put_places(out, next, channels)
}
