// Tidying, by value: the table is built, tidied and arranged again.

ghost use Rattle.std.specs.Prelude.{◌≡◌, true};
ghost use Rattle.moves.specs.MoveList.{recorded};
ghost use Rattle.refusals.specs.Answer.{answer_by};
ghost use Rattle.ring.specs.Answer.{tidying_answer};
ghost use Rattle.ring.specs.Numbers.{tidy_values};
ghost use Rattle.roster.specs.Roster.{table_of, stands};
ghost use Rattle.roster_calls.specs.Calls.{decide_tidy_roster, tidy_roster_reasons};
ghost use Rattle.roster_calls.specs.Tidies.{TidiesHeld};

use crate::{Tidied, TidyDecided};
use moves::MoveList;
use refusals::Refusal;
use roster::Roster;

// A tidying by value, of a roster that stands.
pub fn decide_tidy_valid(roster: Roster, lent: usize) -> TidyDecided
    requires { stands roster ≡ true }
    ensures answer { result ≡ decide_tidy_roster roster lent }
    ensures numbers { tidying_answer result.tidied.answer ≡ answer_by (tidy_roster_reasons roster lent) (tidy_values (table_of roster)) }
    ensures stands { stands result.tidied.roster ≡ true }
    ensures tidies { TidiesHeld roster lent result.tidied (recorded result.moves) }
{
    let table = roster.table_valid();
    let decision = table.decide_tidy_valid(lent);
    TidyDecided {
        tidied: Tidied {
            roster: Roster::of_valid(decision.tidied.table),
            answer: decision.tidied.answer,
        },
        moves: decision.moves,
    }
}

// A tidying by value: the roster, the answer and the moves, for a lent list of so many records.
pub fn decide_tidy(roster: Roster, lent: usize) -> TidyDecided
    ensures answer { result ≡ decide_tidy_roster roster lent }
    ensures numbers { tidying_answer result.tidied.answer ≡ answer_by (tidy_roster_reasons roster lent) (tidy_values (table_of roster)) }
    ensures tidies { stands roster ≡ true → TidiesHeld roster lent result.tidied (recorded result.moves) }
{
    if !roster.stands() {
        return TidyDecided {
            tidied: Tidied {
                roster,
                answer: Err(Refusal::BrokenRule),
            },
            moves: MoveList::none(),
        };
    }
    decide_tidy_valid(roster, lent)
}
