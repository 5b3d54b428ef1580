// The one-link question of a ring table: which circuit runs over a link, on a wavelength, in a direction.

#![tactic(auto)]

ghost use Rattle.std.specs.Prelude.{◌≡◌, true, ◌<◌};
ghost use Rattle.lightpath.specs.Circuit.{on_ring};
ghost use Rattle.slots.specs.Slot.{held};
ghost use Rattle.ring.specs.Table.{meets_rules};
ghost use Rattle.link_question.specs.Link.{refusal_of, number_or_none, way, running, circuit_on, link_verdict, link_of};
ghost use Rattle.link_question.specs.Asked.{Asked};

use lightpath::{Direction, Wavelength};
use refusals::{Refusal, Verdict};
use ring::RingTable;
use slots::Slot;

// The answer where no circuit runs there: above every circuit's number. A refusal is this plus its number.
pub const NO_CIRCUIT: u64 = 4294967296;

// The answer where the question is refused.
pub fn refused(refusal: Refusal) -> u64
    ensures { result ≡ refusal_of refusal }
{
    NO_CIRCUIT + u8::from(refusal) as u64
}

// The direction of a number: 0 clockwise, 1 counterclockwise.
fn way(direction: u64) -> Direction
    ensures { result ≡ way direction }
{
    if direction == 0 {
        Direction::Clockwise
    } else {
        Direction::Counterclockwise
    }
}

// Of the circuits of a place, lightpaths in its direction, the number of the one that uses a link.
fn running(nodes: u8, direction: Direction, link: u8, slot: Slot) -> Option<u32>
    requires { 0 < nodes }
    ensures { number_or_none result ≡ running nodes direction link (held slot) }
{
    match slot {
        Slot::Unlit => None,
        Slot::Alone(a) => {
            if a.uses(nodes, direction, link) {
                return Some(a.number);
            }
            None
        }
        Slot::Shared(a, b) => {
            if a.uses(nodes, direction, link) {
                return Some(a.number);
            }
            if b.uses(nodes, direction, link) {
                return Some(b.number);
            }
            None
        }
    }
}

// Whether a number is that of a link.
fn is_link(nodes: u8, link: u64) -> bool
    ensures { result ≡ on_ring nodes link }
{
    1 <= link && link <= u64::from(nodes)
}

// Whether the link, the wavelength and the direction asked for are there.
fn judge(table: RingTable, link: u64, wavelength: u64, direction: u64) -> Verdict
    ensures { result ≡ link_verdict table link wavelength direction }
{
    if !is_link(table.nodes, link) {
        return Err(Refusal::OffRing);
    }
    if table.wavelengths() as u64 <= wavelength {
        return Err(Refusal::NoWavelength);
    }
    if 2 <= direction {
        return Err(Refusal::NoDirection);
    }
    Ok(())
}

// The number of the circuit on the link, on the wavelength in the direction asked for.
fn circuit_on(table: RingTable, link: u64, wavelength: u64, direction: u64) -> Option<u32>
    requires { Asked table link wavelength }
    ensures { number_or_none result ≡ circuit_on table link wavelength (way direction) }
{
    let direction = way(direction);
    let place = Wavelength(wavelength as u8).place(direction);
    let slot = channels::slot_at(table.channels, place.0 as usize);
    running(table.nodes, direction, link as u8, slot)
}

// The answer to the question of a ring table that meets the rules.
pub fn link_of(table: RingTable, link: u64, wavelength: u64, direction: u64) -> u64
    requires { meets_rules table ≡ true }
    ensures { result ≡ link_of table link wavelength direction }
{
    match judge(table, link, wavelength, direction) {
        Ok(()) => match circuit_on(table, link, wavelength, direction) {
            Some(number) => u64::from(number),
            None => NO_CIRCUIT,
        },
        Err(refusal) => refused(refusal),
    }
}
