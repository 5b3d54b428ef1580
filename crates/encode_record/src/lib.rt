// The record of a place in the saved form: its length, and its bytes.

#![tactic(auto)]

mod circuit;
mod optional;

ghost use Rattle.std.specs.Prelude.{◌≡◌, ◌+◌, ◌*◌, ◌≤◌, length};
ghost use Rattle.basis.specs.Choice.{bit};
ghost use Rattle.slots.specs.Slot.{is_lit};
ghost use Rattle.buffer.specs.Put.{Room, Put};
ghost use Rattle.form.specs.Form.{field_bits, field_map, record_bytes};
ghost use Rattle.form.specs.Most.{circuit_most};

use lightpath::Circuit;
use slots::Slot;

// How many bytes the circuits of a place take; its record is one longer where it is lit.
pub fn slot_length(slot: Slot) -> usize
    ensures { (result + bit (is_lit slot) ≡ length (record_bytes slot)) × (result ≤ 2 * circuit_most) }
{
    match slot {
        Slot::Unlit => 0,
        Slot::Alone(a) => circuit::circuit_length(a),
        Slot::Shared(a, b) => circuit::circuit_length(a) + circuit::circuit_length(b),
    }
}

// The field map of a place with one circuit.
fn alone_map(a: Circuit) -> u8
    ensures { result ≡ field_map (field_bits (Slot.Alone a)) }
{
    optional::present(u32::from(a.remark)) + 8 * optional::present(a.account)
}

// The field map of a place with two circuits.
fn shared_map(a: Circuit, b: Circuit) -> u8
    ensures { result ≡ field_map (field_bits (Slot.Shared a b)) }
{
    let remarks = optional::present(u32::from(a.remark))
        + 4 * optional::present(u32::from(b.remark));
    let accounts = optional::present(a.account) + 2 * optional::present(b.account);
    remarks + 2 + 8 * accounts
}

// Writes the record of a place with one circuit.
fn put_alone(out: &mut [u8], at: usize, a: Circuit) -> usize
    requires { Room out.old at (record_bytes (Slot.Alone a)) }
    ensures { Put out.old at (record_bytes (Slot.Alone a)) out.new result }
{
    let first = buffer::put_byte(out, at, alone_map(a));
    circuit::put_circuit(out, first, a)
}

// Writes the record of a place with two circuits.
fn put_shared(out: &mut [u8], at: usize, a: Circuit, b: Circuit) -> usize
    requires { Room out.old at (record_bytes (Slot.Shared a b)) }
    ensures { Put out.old at (record_bytes (Slot.Shared a b)) out.new result }
{
    let first = buffer::put_byte(out, at, shared_map(a, b));
    let second = circuit::put_circuit(out, first, a);
    circuit::put_circuit(out, second, b)
}

// Writes the record of a place; an unlit one has none.
pub fn put_record(out: &mut [u8], at: usize, slot: Slot) -> usize
    requires { Room out.old at (record_bytes slot) }
    ensures { Put out.old at (record_bytes slot) out.new result }
{
    match slot {
        Slot::Unlit => at,
        Slot::Alone(a) => put_alone(out, at, a),
        Slot::Shared(a, b) => put_shared(out, at, a, b),
    }
}
