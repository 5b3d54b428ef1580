// Writes the saved form of a ring table into lent bytes.

#![tactic(auto)]

mod places;

ghost use Rattle.std.specs.Prelude.{◌≡◌, true, [], ◌∷◌, ◌≤◌, length};
ghost use Rattle.limits.specs.Limits.{most_nodes};
ghost use Rattle.channels.specs.Channels.{lit_of};
ghost use Rattle.refusals.specs.Answer.{answer_by};
ghost use Rattle.ring.specs.Table.{meets_rules};
ghost use Rattle.buffer.specs.Put.{Room, Put};
ghost use Rattle.form.specs.Form.{form_of};
ghost use Rattle.encode.specs.Answer.{written_of, written_answer, write_reasons, bytes_after};

use form::MAP_WIDTH;
use lit_words::Lit;
use refusals::Refusal;
use ring::RingTable;

// The length of the form: the ones of the map count the records.
fn form_length(table: RingTable, lit: Lit) -> usize
    requires { (table.nodes ≤ most_nodes) × (lit ≡ lit_of table.channels) }
    ensures { result ≡ length (form_of table) }
{
    let places = places::circuits_length(&table.channels);
    1 + MAP_WIDTH + usize::from(table.nodes) + lit.count() as usize + places
}

// Writes the form at the start of the lent bytes.
fn put_form(out: &mut [u8], table: RingTable, lit: Lit) -> usize
    requires { Room out.old 0 (form_of table) × (table.nodes ≤ most_nodes) × (lit ≡ lit_of table.channels) }
    ensures { Put out.old 0 (form_of table) out.new result }
{
    let start = buffer::put_byte(out, 0, table.nodes);
    let map = buffer::put_text(out, start, &table.ports[..usize::from(table.nodes)]);
    let records = byte_numbers::put_map(out, map, lit);
    places::put_records(out, records, &table.channels)
}

// Writes the form of a table that meets the ring rules.
pub fn write_valid(table: RingTable, out: &mut [u8]) -> Result<usize, Refusal>
    requires { meets_rules table ≡ true }
    ensures answer { result ≡ written_of table (length out.old) }
    ensures buffer { out.new ≡ bytes_after table out.old }
    ensures numbers { written_answer result ≡ answer_by (write_reasons table (length out.old)) (length (form_of table) ∷ []) }
{
    let lit = channels::lit_of(table.channels);
    let length = form_length(table, lit);
    if out.len() < length {
        return Err(Refusal::ShortBuffer);
    }
    put_form(out, table, lit);
    Ok(length)
}

// Writes the form of a table: 22 where it breaks a ring rule, 21 where the lent bytes are too few. The bytes after the form keep their
// values, and on a refusal all do.
pub fn write(table: RingTable, out: &mut [u8]) -> Result<usize, Refusal>
    ensures answer { result ≡ written_of table (length out.old) }
    ensures buffer { out.new ≡ bytes_after table out.old }
    ensures numbers { written_answer result ≡ answer_by (write_reasons table (length out.old)) (length (form_of table) ∷ []) }
{
    if !table.meets_rules() {
        return Err(Refusal::BrokenRule);
    }
    write_valid(table, out)
}
