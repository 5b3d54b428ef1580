// Reads the saved form of a ring table, from left to right.

#![tactic(auto)]

mod places;

ghost use Rattle.std.specs.Prelude.{◌≡◌, Ok};
ghost use Rattle.refusals.specs.Answer.{verdict_answer};
ghost use Rattle.ring.specs.Table.{with_channels};
ghost use Rattle.form.specs.Form.{form_of};
ghost use Rattle.form.specs.Reading.{read_ports, read_table, read_of, read_answer};
ghost use Rattle.decode.specs.Begun.{ring_by, judged_table, value_of, Ported, Mapped};

use channels::Channel;
use form::MAP_WIDTH;
use limits::{LEAST_NODES, MOST_NODES, PLACE_COUNT};
use lit_words::Lit;
use refusals::Refusal;
use ring::{Answered, RingTable};

// Reads N and the ports, as the ring that they make.
fn read_ring(form: &[u8]) -> Result<RingTable, Refusal>
    ensures { result ≡ ring_by (read_ports form.now) }
{
    if form.len() < 1 {
        return Err(Refusal::CutShort);
    }
    let nodes = form[0];
    if nodes < LEAST_NODES {
        return Err(Refusal::NodeCount);
    }
    if MOST_NODES < nodes {
        return Err(Refusal::NodeCount);
    }
    let end = 1 + nodes as usize;
    if form.len() < end {
        return Err(Refusal::CutShort);
    }
    let made = RingTable::make(nodes, &form[1..end]);
    made.verdict?;
    Ok(made.table)
}

// The table that was read, if it meets the ring rules.
fn checked(ring: RingTable, channels: [Channel; PLACE_COUNT]) -> Result<RingTable, Refusal>
    ensures { result ≡ judged_table (with_channels ring channels) }
{
    let table = RingTable { channels, ..ring };
    if !table.meets_rules() {
        return Err(Refusal::BrokenForm);
    }
    Ok(table)
}

// Reads the records, after which nothing may follow.
fn read_channels(form: &[u8], ring: RingTable, lit: Lit) -> Result<RingTable, Refusal>
    requires { Mapped form.now ring lit }
    ensures { result ≡ value_of (read_table form.now) }
{
    let start = 1 + MAP_WIDTH + ring.nodes as usize;
    let (channels, at) = places::read_records(form, start, lit)?;
    if at < form.len() {
        return Err(Refusal::TrailingBytes);
    }
    checked(ring, channels)
}

// Reads what follows the ports of a ring.
fn read_places(form: &[u8], ring: RingTable) -> Result<RingTable, Refusal>
    requires { Ported form.now ring }
    ensures { result ≡ value_of (read_table form.now) }
{
    let start = 1 + ring.nodes as usize;
    if form.len() - start < MAP_WIDTH {
        return Err(Refusal::CutShort);
    }
    let lit = byte_numbers::read_map(form, start);
    if !lit.none_lit_from(ports::place_limit(ring.ports)) {
        return Err(Refusal::BadField);
    }
    read_channels(form, ring, lit)
}

// The table of a form, or the first fault from left to right.
fn read_table(form: &[u8]) -> Result<RingTable, Refusal>
    ensures { result ≡ value_of (read_table form.now) }
{
    let ring = read_ring(form)?;
    read_places(form, ring)
}

// Reads a form: the table, or the blank one and the refusal. What is granted is a table whose form is the bytes read.
pub fn read(form: &[u8]) -> Answered
    ensures answer { result ≡ read_of form.now }
    ensures numbers { verdict_answer result.verdict ≡ read_answer form.now }
    ensures back { result.verdict ≡ Ok tt → form_of result.table ≡ form.now }
{
    match read_table(form) {
        Ok(table) => Answered {
            table,
            verdict: Ok(()),
        },
        Err(refusal) => Answered {
            table: RingTable::blank(),
            verdict: Err(refusal),
        },
    }
}
