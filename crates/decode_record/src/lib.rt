// The record of a place in the saved form, read at a position of the form.

#![tactic(auto)]

mod circuit;
mod optional;

ghost use Rattle.std.specs.Prelude.{◌≡◌, ◌≤◌, length, drop};
ghost use Rattle.form.specs.Reading.{map_holds, read_second, read_record, read_place};
ghost use Rattle.decode_record.specs.Found.{FieldAt};

use lightpath::Circuit;
use optional::stands;
use refusals::Refusal;
use slots::Slot;

// Whether a field map has no bit that may not stand.
fn map_holds(map: u8) -> bool
    ensures { result ≡ map_holds map }
{
    map < 32 && (stands(map, 1) || !(stands(map, 2) || stands(map, 4)))
}

// Reads the second circuit of a record, if the field map says that there is one.
fn read_second(
    form: &[u8],
    at: usize,
    first: Circuit,
    second: bool,
    remarked: bool,
    billed: bool,
) -> Result<(Slot, usize), Refusal>
    requires { at ≤ length form.now }
    ensures { FieldAt form.now result (read_second first second remarked billed (drop at form.now)) }
{
    if !second {
        return Ok((Slot::Alone(first), at));
    }
    let (circuit, next) = circuit::read_circuit(form, at, remarked, billed)?;
    Ok((Slot::Shared(first, circuit), next))
}

// Reads the record of a lit place.
fn read_record(form: &[u8], at: usize) -> Result<(Slot, usize), Refusal>
    requires { at ≤ length form.now }
    ensures { FieldAt form.now result (read_record (drop at form.now)) }
{
    if form.len() <= at {
        return Err(Refusal::CutShort);
    }
    let map = form[at];
    if !map_holds(map) {
        return Err(Refusal::BadField);
    }
    let remarked = stands(map, 0);
    let billed = stands(map, 3);
    let (first, next) = circuit::read_circuit(form, at + 1, remarked, billed)?;
    read_second(
        form,
        next,
        first,
        stands(map, 1),
        stands(map, 2),
        stands(map, 4),
    )
}

// Reads what a place holds, which has a record only if it is lit, and gives the position after its record.
pub fn read_place(form: &[u8], at: usize, lit: bool) -> Result<(Slot, usize), Refusal>
    requires { at ≤ length form.now }
    ensures { FieldAt form.now result (read_place lit (drop at form.now)) }
{
    if lit {
        read_record(form, at)
    } else {
        Ok((Slot::Unlit, at))
    }
}
