// Step 3: the pair that is found, which circuits move, and where to.

ghost use Rattle.std.specs.Prelude.{◌≡◌, ◌<◌, ◌≤◌};
ghost use Rattle.limits.specs.Limits.{place_count};
ghost use Rattle.steps.specs.Steps.{join_place, unlit_place, stands_right, exchanging, rearranging, plan_of};
ghost use Rattle.steps.specs.Ready.{Ready};
ghost use Rattle.plan.specs.Planned.{Plans, Movable};

use crate::Planned;
use crate::plan::{one_move, three_moves, two_moves};
use channels::{Channel, Standing};
use lightpath::{Circuit, Place};
use limits::PLACE_COUNT;
use pairs::{Found, Pair};

// Whether x stands in a direction in which the pair a and b can share.
pub fn stands_right(nodes: u8, a: Standing, b: Standing, x: Standing) -> bool
    requires { 0 < nodes }
    ensures { result ≡ stands_right nodes a b x }
{
    x.place < PLACE_COUNT
        && a.circuit
            .can_share(b.circuit, nodes, Place(x.place as u8).direction())
}

// Step 3b: x moves to a's place, a and an old b to x's. The new circuit joins a there, or takes b's old place.
fn exchanged(circuit: Circuit, found: Found) -> Planned
    requires { (found.x.place < place_count) × (found.pair.first.place < place_count) }
    ensures { Plans (exchanging circuit found.x found.pair.first found.pair.second found.pair.looks) result }
{
    let Pair {
        first,
        second,
        looks,
    } = found.pair;
    if second.place < PLACE_COUNT {
        three_moves(circuit, found.x, first, second, looks)
    } else {
        two_moves(circuit, found.x, first, looks)
    }
}

// Step 3 with the pair found: 3a where a member of it stands right, and 3b where neither does.
fn rearranged(nodes: u8, circuit: Circuit, found: Found) -> Planned
    requires { Movable nodes found }
    ensures { Plans (rearranging nodes circuit found.x found.pair.first found.pair.second found.pair.looks) result }
{
    let Pair {
        first,
        second,
        looks,
    } = found.pair;
    if stands_right(nodes, first, second, first) {
        one_move(circuit, first, second, looks)
    } else if stands_right(nodes, first, second, second) {
        one_move(circuit, second, first, looks)
    } else {
        exchanged(circuit, found)
    }
}

// Step 3's plan, which is the plan of the steps where steps 1 and 2 find no place.
pub fn step_three(
    nodes: u8,
    limit: usize,
    channels: [Channel; PLACE_COUNT],
    circuit: Circuit,
) -> Planned
    requires { Ready nodes limit channels circuit × (limit ≤ join_place nodes limit channels circuit) × (limit ≤ unlit_place nodes limit channels circuit) }
    ensures { Plans (plan_of nodes limit channels circuit) result }
{
    rearranged(
        nodes,
        circuit,
        pairs::found_for(nodes, limit, channels, circuit),
    )
}
