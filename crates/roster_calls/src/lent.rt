// Opening and tidying as a host calls them: the moves go to a list of records that it lends.

ghost use Rattle.std.specs.Prelude.{◌≡◌, true, length};
ghost use Rattle.refusals.specs.Answer.{answer_by};
ghost use Rattle.ring.specs.Answer.{opening_answer, tidying_answer};
ghost use Rattle.ring.specs.Numbers.{open_values, tidy_values};
ghost use Rattle.roster.specs.Roster.{table_of, stands};
ghost use Rattle.roster_calls.specs.Calls.{open_roster, open_roster_lent, open_roster_reasons, tidy_roster, tidy_roster_lent, tidy_roster_reasons};
ghost use Rattle.roster_calls.specs.Demand3.{Demand3HeldLent};
ghost use Rattle.roster_calls.specs.Tidies.{TidiesHeldLent};

use crate::opening::decide;
use crate::tidyings::decide_tidy;
use crate::{Opened, Tidied};
use lightpath::Circuit;
use moves::Move;
use roster::Roster;

// The circuit goes where document 01's steps put it. The roster comes back with the answer, and the first records of the lent list name the
// moves.
pub fn open(roster: Roster, circuit: Circuit, moves: &mut [Move]) -> Opened
    ensures answer { result ≡ open_roster roster circuit moves.old }
    ensures list { moves.new ≡ open_roster_lent roster circuit moves.old }
    ensures numbers { opening_answer result.answer ≡ answer_by (open_roster_reasons roster circuit (length moves.old)) (open_values (table_of roster) circuit) }
    ensures demand3 { stands roster ≡ true → Demand3HeldLent roster circuit moves.old result moves.new }
{
    let decision = decide(roster, circuit, moves.len());
    moves::write_moves(moves, decision.moves);
    decision.opened
}

// Circuits that stand apart are joined until no pair can be. The roster comes back with the answer, and the first records of the lent list,
// which has at least 128, name the moves.
pub fn tidy(roster: Roster, moves: &mut [Move]) -> Tidied
    ensures answer { result ≡ tidy_roster roster moves.old }
    ensures list { moves.new ≡ tidy_roster_lent roster moves.old }
    ensures numbers { tidying_answer result.answer ≡ answer_by (tidy_roster_reasons roster (length moves.old)) (tidy_values (table_of roster)) }
    ensures tidies { stands roster ≡ true → TidiesHeldLent roster moves.old result moves.new }
{
    let decision = decide_tidy(roster, moves.len());
    moves::write_list(moves, decision.moves);
    decision.tidied
}
