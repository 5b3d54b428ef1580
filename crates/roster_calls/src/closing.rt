// Closing a circuit.

ghost use Rattle.std.specs.Prelude.{◌≡◌, true, []};
ghost use Rattle.refusals.specs.Answer.{verdict_answer, answer_by};
ghost use Rattle.roster.specs.Roster.{stands};
ghost use Rattle.roster_calls.specs.Calls.{close_roster, close_roster_reasons};

use refusals::Refusal;
use roster::{Built, Roster};

// A closing of a roster that stands, on a copy of its lists.
pub fn close_valid(mut roster: Roster, number: u32) -> Built
    requires { stands roster ≡ true }
    ensures answer { result ≡ close_roster roster number }
    ensures numbers { verdict_answer result.verdict ≡ answer_by (close_roster_reasons roster number) [] }
    ensures stands { stands result.roster ≡ true }
{
    let closed = roster_open::close_in(roster.heading, &mut roster.keys, &mut roster.rests, number);
    roster.heading = closed.heading;
    Built {
        roster,
        verdict: closed.verdict,
    }
}

// The circuit of a number is taken off its place, and nothing else changes.
pub fn close(roster: Roster, number: u32) -> Built
    ensures answer { result ≡ close_roster roster number }
    ensures numbers { verdict_answer result.verdict ≡ answer_by (close_roster_reasons roster number) [] }
    ensures stands { stands roster ≡ true → stands result.roster ≡ true }
{
    if !roster.stands() {
        return Built {
            roster,
            verdict: Err(Refusal::BrokenRule),
        };
    }
    close_valid(roster, number)
}
