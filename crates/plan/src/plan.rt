// What each step does: which places get what, the place taken, the moves and the looks.

ghost use Rattle.std.specs.Prelude.{◌≡◌, ◌<◌};
ghost use Rattle.limits.specs.Limits.{place_count};
ghost use Rattle.slots.specs.Slot.{together};
ghost use Rattle.slots.specs.declared.Slot.TheVariants.{Alone as alone};
ghost use Rattle.channels.specs.Change.{◌gets◌};
ghost use Rattle.steps.specs.Plan.{moves_to, joining, lighting, one_move, two_moves, three_moves};
ghost use Rattle.plan.specs.Planned.{Plans};

use crate::Planned;
use channels::{Change, Changes, Standing};
use lightpath::{Circuit, Place};
use moves::{Move, Moves};
use slots::Slot;

// The record of a move: number, old place, new place.
pub fn moves_to(standing: Standing, place: usize) -> Move
    requires { (standing.place < place_count) × (place < place_count) }
    ensures { result ≡ moves_to standing place }
{
    Move {
        number: standing.circuit.number,
        from: Place(standing.place as u8),
        to: Place(place as u8),
    }
}

// Two circuits come together at a place.
pub fn shared(place: usize, a: Circuit, b: Circuit) -> Change
    ensures { result ≡ place gets together a b }
{
    Change {
        place,
        slot: Slot::together(a, b),
    }
}

// A circuit comes to stand alone at a place.
fn alone(place: usize, circuit: Circuit) -> Change
    ensures { result ≡ place gets alone circuit }
{
    Change {
        place,
        slot: Slot::Alone(circuit),
    }
}

// Step 1: the new circuit joins a partner.
pub fn joined(circuit: Circuit, partner: Standing) -> Planned
    requires { partner.place < place_count }
    ensures { Plans (joining circuit partner) result }
{
    Planned::taking(
        partner.place,
        Changes::one(shared(partner.place, partner.circuit, circuit)),
        Moves::none(),
        0,
    )
}

// Step 2: it takes an unlit place.
pub fn lighted(circuit: Circuit, place: usize) -> Planned
    requires { place < place_count }
    ensures { Plans (lighting circuit place) result }
{
    Planned::taking(place, Changes::one(alone(place, circuit)), Moves::none(), 0)
}

// Step 3a: a stays, b moves to it, and the new circuit takes the place left.
pub fn one_move(circuit: Circuit, a: Standing, b: Standing, looks: u16) -> Planned
    requires { (a.place < place_count) × (b.place < place_count) }
    ensures { Plans (one_move circuit a b looks) result }
{
    Planned::taking(
        b.place,
        Changes::two(
            shared(a.place, a.circuit, b.circuit),
            alone(b.place, circuit),
        ),
        Moves::one(moves_to(b, a.place)),
        looks,
    )
}

// Step 3b with an old member a and the new circuit: x moves to a's place, a to x's, the new one joins there.
pub fn two_moves(circuit: Circuit, x: Standing, a: Standing, looks: u16) -> Planned
    requires { (x.place < place_count) × (a.place < place_count) }
    ensures { Plans (two_moves circuit x a looks) result }
{
    Planned::taking(
        x.place,
        Changes::two(
            shared(x.place, a.circuit, circuit),
            alone(a.place, x.circuit),
        ),
        Moves::two(moves_to(x, a.place), moves_to(a, x.place)),
        looks,
    )
}

// Step 3b with old members a then b: x moves to a's place, a and b to x's, and the new circuit takes b's old place.
pub fn three_moves(circuit: Circuit, x: Standing, a: Standing, b: Standing, looks: u16) -> Planned
    requires { (x.place < place_count) × (a.place < place_count) × (b.place < place_count) }
    ensures { Plans (three_moves circuit x a b looks) result }
{
    Planned::taking(
        b.place,
        Changes::three(
            shared(x.place, a.circuit, b.circuit),
            alone(a.place, x.circuit),
            alone(b.place, circuit),
        ),
        Moves::three(
            moves_to(x, a.place),
            moves_to(a, x.place),
            moves_to(b, x.place),
        ),
        looks,
    )
}
