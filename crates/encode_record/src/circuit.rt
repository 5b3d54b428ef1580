// A circuit: its length, and its bytes.

ghost use Rattle.std.specs.Prelude.{◌≡◌, ◌≤◌, length};
ghost use Rattle.buffer.specs.Put.{Room, Put};
ghost use Rattle.form.specs.Form.{circuit_bytes};
ghost use Rattle.form.specs.Most.{circuit_most};
ghost use Rattle.encode_record.specs.Fields.{plain_fields, optional_fields};

use crate::optional;
use form::{ACCOUNT_WIDTH, NUMBER_WIDTH, PLAIN_WIDTH, REMARK_WIDTH};
use lightpath::Circuit;

// How many bytes a circuit takes.
pub fn circuit_length(circuit: Circuit) -> usize
    ensures { (result ≡ length (circuit_bytes circuit)) × (result ≤ circuit_most) }
{
    let remark = optional::optional_length(u32::from(circuit.remark), REMARK_WIDTH);
    let account = optional::optional_length(circuit.account, ACCOUNT_WIDTH);
    PLAIN_WIDTH + remark + account
}

// Writes the fields that every circuit has.
fn put_plain(out: &mut [u8], at: usize, circuit: Circuit) -> usize
    requires { Room out.old at (plain_fields circuit) }
    ensures { Put out.old at (plain_fields circuit) out.new result }
{
    let source = byte_numbers::put_number(out, at, circuit.number, NUMBER_WIDTH);
    let destination = buffer::put_byte(out, source, circuit.source);
    buffer::put_byte(out, destination, circuit.destination)
}

// Writes those that one may be without: its remark and its account.
fn put_optional_fields(out: &mut [u8], at: usize, circuit: Circuit) -> usize
    requires { Room out.old at (optional_fields circuit) }
    ensures { Put out.old at (optional_fields circuit) out.new result }
{
    let account = optional::put_optional(out, at, u32::from(circuit.remark), REMARK_WIDTH);
    optional::put_optional(out, account, circuit.account, ACCOUNT_WIDTH)
}

// Writes a circuit.
pub fn put_circuit(out: &mut [u8], at: usize, circuit: Circuit) -> usize
    requires { Room out.old at (circuit_bytes circuit) }
    ensures { Put out.old at (circuit_bytes circuit) out.new result }
{
    let optional = put_plain(out, at, circuit);
    put_optional_fields(out, optional, circuit)
}
