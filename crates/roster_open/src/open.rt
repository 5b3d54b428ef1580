// Opening a circuit, and placing one with nothing asked, in place.

ghost use Rattle.std.specs.Prelude.{◌≡◌, Ok, Err};
ghost use Rattle.moves.specs.Records.{none};
ghost use Rattle.ports.specs.Ports.{limit_of};
ghost use Rattle.rules.specs.Allowable.{Allowable};
ghost use Rattle.steps.specs.Steps.{plan_of};
ghost use Rattle.steps.specs.Ready.{Ready};
ghost use Rattle.survey.specs.Survey.{survey_of};
ghost use Rattle.plan.specs.Planned.{Plans};
ghost use Rattle.refusals.specs.Refusal.{judged};
ghost use Rattle.causes.specs.Causes.{named_causes};
ghost use Rattle.ring.specs.Opening.{used_causes, placing, decided_by, decide_of};
ghost use Rattle.roster.specs.Roster.{places_of};
ghost use Rattle.roster.specs.Held.{table_in, HoldsTable};
ghost use Rattle.roster_open.specs.InPlace.{OpensIn};

use crate::OpenedIn;
use crate::entries_moved::replace_all;
use lightpath::Circuit;
use moves::Moves;
use plan::Planned;
use refusals::Refusal;
use ring::Taken;
use roster::Heading;
use survey::Survey;

// Nothing changes, and the refusal.
fn refuse(heading: Heading, refusal: Refusal) -> OpenedIn
    ensures { result ≡ record { heading = heading; answer = Err refusal; moves = none } }
{
    OpenedIn {
        heading,
        answer: Err(refusal),
        moves: Moves::none(),
    }
}

// The plan of the first step that serves a circuit. The places are built where steps 1 and 2 find none, and only there.
fn plan_in(
    heading: Heading,
    limit: usize,
    keys: &[u64],
    rests: &[u64],
    circuit: Circuit,
    seen: Survey,
) -> Planned
    requires { HoldsTable (table_in heading keys.now rests.now) heading keys.now rests.now × Ready heading.nodes limit (places_of keys.now rests.now heading.count) circuit × (seen ≡ survey_of heading.nodes limit (places_of keys.now rests.now heading.count) circuit) }
    ensures { Plans (plan_of heading.nodes limit (places_of keys.now rests.now heading.count) circuit) result }
{
    let nodes = heading.nodes;
    let join = seen.join;
    if join.place < limit {
        return plan::joined(circuit, join);
    }
    let unlit = seen.unlit_place(nodes, limit, circuit);
    if unlit < limit {
        return plan::lighted(circuit, unlit);
    }
    let channels = roster::places_of(keys, rests, heading.count as usize);
    plan::step_three(nodes, limit, channels, circuit)
}

// A circuit is placed by what was seen of the entries: the moved circuits get their new places, and the new one is filed.
fn place_seen(
    heading: Heading,
    keys: &mut [u64],
    rests: &mut [u64],
    circuit: Circuit,
    limit: usize,
    seen: Survey,
) -> OpenedIn
    requires { HoldsTable (table_in heading keys.old rests.old) heading keys.old rests.old × Allowable heading.nodes heading.ports (places_of keys.old rests.old heading.count) circuit × (limit ≡ limit_of heading.ports) × (seen ≡ survey_of heading.nodes limit (places_of keys.old rests.old heading.count) circuit) }
    ensures { OpensIn (placing (table_in heading keys.old rests.old) circuit) keys.new rests.new result }
{
    let planned = plan_in(heading, limit, keys, rests, circuit, seen);
    let count = heading.count as usize;
    let place = planned.place;
    let moves = planned.moves;
    replace_all(keys, rests, count, moves);
    roster::file(keys, rests, count, circuit, place.0 as usize);
    let filed = heading.count + 1;
    OpenedIn {
        heading: Heading {
            count: filed,
            ..heading
        },
        answer: Ok(Taken {
            place,
            moves: moves.count,
            looks: planned.looks,
        }),
        moves,
    }
}

// A circuit is placed by document 01's steps with nothing asked, where the ports permit it.
pub fn place_in(heading: Heading, keys: &mut [u64], rests: &mut [u64], circuit: Circuit) -> OpenedIn
    requires { HoldsTable (table_in heading keys.old rests.old) heading keys.old rests.old × Allowable heading.nodes heading.ports (places_of keys.old rests.old heading.count) circuit }
    ensures { OpensIn (placing (table_in heading keys.old rests.old) circuit) keys.new rests.new result }
{
    let limit = ports::place_limit(heading.ports);
    let seen = roster_survey::survey_entries(heading, limit, keys, rests, circuit);
    place_seen(heading, keys, rests, circuit, limit, seen)
}

// An opening of a request that names two nodes of the ring: by what is seen of the entries.
fn open_named(heading: Heading, keys: &mut [u64], rests: &mut [u64], circuit: Circuit) -> OpenedIn
    requires { HoldsTable (table_in heading keys.old rests.old) heading keys.old rests.old × (judged (named_causes heading.nodes circuit) ≡ Ok tt) }
    ensures { OpensIn (decided_by (table_in heading keys.old rests.old) circuit (judged (used_causes (table_in heading keys.old rests.old) circuit))) keys.new rests.new result }
{
    let limit = ports::place_limit(heading.ports);
    let seen = roster_survey::survey_entries(heading, limit, keys, rests, circuit);
    match causes::used_verdict(heading.ports, circuit, seen) {
        Ok(()) => place_seen(heading, keys, rests, circuit, limit, seen),
        Err(refusal) => refuse(heading, refusal),
    }
}

// An opening, with a lent list of so many records: the circuit goes where document 01's steps put it.
pub fn open_in(
    heading: Heading,
    keys: &mut [u64],
    rests: &mut [u64],
    circuit: Circuit,
    lent: usize,
) -> OpenedIn
    requires { HoldsTable (table_in heading keys.old rests.old) heading keys.old rests.old }
    ensures { OpensIn (decide_of (table_in heading keys.old rests.old) circuit lent) keys.new rests.new result }
{
    match causes::named_verdict(heading.nodes, circuit, lent) {
        Ok(()) => open_named(heading, keys, rests, circuit),
        Err(refusal) => refuse(heading, refusal),
    }
}
