// Plans by value: the first of document 01's steps that serves a new circuit, and what each does with what was found for it. The places are
// changed by whoever holds them.

#![tactic(auto)]

ghost use Rattle.std.specs.Prelude.{◌≡◌, ◌<◌};
ghost use Rattle.limits.specs.Limits.{place_count};
ghost use Rattle.steps.specs.Steps.{plan_of};
ghost use Rattle.steps.specs.Ready.{Ready};
ghost use Rattle.survey.specs.Survey.{survey_of};
ghost use Rattle.plan.specs.Planned.{Plans};

mod plan;
mod rearrange;

use channels::{Changes, Channel};
use lightpath::{Circuit, Place};
use limits::PLACE_COUNT;
use moves::Moves;
pub use plan::{joined, lighted, moves_to, shared};
pub use rearrange::{stands_right, step_three};
use survey::Survey;

// A plan: which places get what, the place taken, the moves and the looks.
#[derive(Clone, Copy)]
pub struct Planned {
    pub changes: Changes,
    pub place: Place,
    pub moves: Moves,
    pub looks: u16,
}

impl Planned {
    // A plan that takes a place.
    fn taking(place: usize, changes: Changes, moves: Moves, looks: u16) -> Planned
        requires { place < place_count }
        ensures { result ≡ record { changes = changes; place = record { 0 = place }; moves = moves; looks = looks } }
    {
        Planned {
            changes,
            place: Place(place as u8),
            moves,
            looks,
        }
    }
}

// The plan of the first step that serves a circuit. Step 3's search is made where steps 1 and 2 find no place, and only there.
pub fn plan_for(
    nodes: u8,
    limit: usize,
    channels: [Channel; PLACE_COUNT],
    circuit: Circuit,
    seen: Survey,
) -> Planned
    requires { Ready nodes limit channels circuit × (seen ≡ survey_of nodes limit channels circuit) }
    ensures { Plans (plan_of nodes limit channels circuit) result }
{
    let join = seen.join;
    if join.place < limit {
        return joined(circuit, join);
    }
    let unlit = seen.unlit_place(nodes, limit, circuit);
    if unlit < limit {
        return lighted(circuit, unlit);
    }
    step_three(nodes, limit, channels, circuit)
}
