// Making a ring.

ghost use Rattle.std.specs.Prelude.{◌≡◌, true, [], Ok};
ghost use Rattle.refusals.specs.Answer.{verdict_answer, answer_by};
ghost use Rattle.ring.specs.Numbers.{make_reasons};
ghost use Rattle.roster.specs.Roster.{stands};
ghost use Rattle.roster_calls.specs.Calls.{make_roster};

use ring::RingTable;
use roster::{Built, Roster};

// A ring of so many nodes with a list of port counts, and no circuit.
pub fn make(nodes: u8, ports: &[u8]) -> Built
    ensures answer { result ≡ make_roster nodes ports.now }
    ensures numbers { verdict_answer result.verdict ≡ answer_by (make_reasons nodes ports.now) [] }
    ensures stands { result.verdict ≡ Ok tt → stands result.roster ≡ true }
{
    let made = RingTable::make(nodes, ports);
    match made.verdict {
        Ok(()) => Built {
            roster: Roster::of_valid(made.table),
            verdict: Ok(()),
        },
        Err(refusal) => Built {
            roster: Roster::blank(),
            verdict: Err(refusal),
        },
    }
}
