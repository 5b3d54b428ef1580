// Opening a circuit, by value.

ghost use Rattle.std.specs.Prelude.{◌≡◌, true};
ghost use Rattle.moves.specs.Records.{listed};
ghost use Rattle.refusals.specs.Answer.{answer_by};
ghost use Rattle.ring.specs.Answer.{opening_answer};
ghost use Rattle.ring.specs.Numbers.{open_values};
ghost use Rattle.roster.specs.Roster.{table_of, stands};
ghost use Rattle.roster_calls.specs.Calls.{decide_roster, open_roster_reasons};
ghost use Rattle.roster_calls.specs.Demand3.{Demand3Held};

use crate::{Decided, Opened};
use lightpath::Circuit;
use moves::Moves;
use refusals::Refusal;
use roster::Roster;

// An opening of a roster that stands, on a copy of its lists.
pub fn decide_valid(mut roster: Roster, circuit: Circuit, lent: usize) -> Decided
    requires { stands roster ≡ true }
    ensures answer { result ≡ decide_roster roster circuit lent }
    ensures numbers { opening_answer result.opened.answer ≡ answer_by (open_roster_reasons roster circuit lent) (open_values (table_of roster) circuit) }
    ensures stands { stands result.opened.roster ≡ true }
    ensures demand3 { Demand3Held roster circuit lent result.opened (listed result.moves) }
{
    let opened = roster_open::open_in(
        roster.heading,
        &mut roster.keys,
        &mut roster.rests,
        circuit,
        lent,
    );
    roster.heading = opened.heading;
    Decided {
        opened: Opened {
            roster,
            answer: opened.answer,
        },
        moves: opened.moves,
    }
}

// An opening by value: the roster, the answer and the moves, for a circuit and a lent list of so many records.
pub fn decide(roster: Roster, circuit: Circuit, lent: usize) -> Decided
    ensures answer { result ≡ decide_roster roster circuit lent }
    ensures numbers { opening_answer result.opened.answer ≡ answer_by (open_roster_reasons roster circuit lent) (open_values (table_of roster) circuit) }
    ensures demand3 { stands roster ≡ true → Demand3Held roster circuit lent result.opened (listed result.moves) }
{
    if !roster.stands() {
        return Decided {
            opened: Opened {
                roster,
                answer: Err(Refusal::BrokenRule),
            },
            moves: Moves::none(),
        };
    }
    decide_valid(roster, circuit, lent)
}
