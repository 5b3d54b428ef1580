// Opening a circuit, as a host calls it: the moves go to a list of records that it lends.

ghost use Rattle.std.specs.Prelude.{◌≡◌, true, length};
ghost use Rattle.refusals.specs.Answer.{answer_by};
ghost use Rattle.ring.specs.Table.{meets_rules};
ghost use Rattle.ring.specs.Opening.{open_of, lent_after};
ghost use Rattle.ring.specs.Answer.{opening_answer};
ghost use Rattle.ring.specs.Demand3.{Demand3Lent};
ghost use Rattle.ring.specs.Numbers.{open_reasons, open_values};

use crate::{Opened, RingTable};
use lightpath::Circuit;
use moves::Move;

impl RingTable {
    // The circuit goes where document 01's steps put it. The table comes back with the answer, and the first records of the lent list name
    // the moves.
    pub fn open(self, circuit: Circuit, moves: &mut [Move]) -> Opened
        ensures answer { result ≡ open_of self circuit moves.old }
        ensures list { moves.new ≡ lent_after self circuit moves.old }
        ensures numbers { opening_answer result.answer ≡ answer_by (open_reasons self circuit (length moves.old)) (open_values self circuit) }
        ensures demand3 { meets_rules self ≡ true → Demand3Lent self circuit moves.old result moves.new }
    {
        let decision = self.decide(circuit, moves.len());
        moves::write_moves(moves, decision.moves);
        decision.opened
    }
}
