// Tidying: circuits that stand apart are joined, round by round. By value, and as a host calls it, with the moves in a list that it lends.

ghost use Rattle.std.specs.Prelude.{◌≡◌, true, length, Ok, Err};
ghost use Rattle.moves.specs.MoveList.{recorded};
ghost use Rattle.refusals.specs.Answer.{answer_by};
ghost use Rattle.ring.specs.Table.{meets_rules};
ghost use Rattle.ring.specs.Tidying.{tidying_by, decide_tidy_of, tidy_of, tidy_lent_after};
ghost use Rattle.ring.specs.Answer.{tidying_answer};
ghost use Rattle.ring.specs.Numbers.{tidy_reasons, tidy_values};
ghost use Rattle.ring.specs.Tidies.{TidiesBy, TidiesLent};

use crate::{RingTable, Tidied, TidyCounts, TidyDecision};
use limits::TIDY_RECORDS;
use moves::{Move, MoveList};
use refusals::Refusal;

impl RingTable {
    // The rounds of a table that meets the ring rules.
    fn tidy_rounds(self) -> TidyDecision
        requires { meets_rules self ≡ true }
        ensures { result ≡ tidying_by self (Ok tt) }
    {
        let nodes = self.nodes;
        let ports = self.ports;
        let channels = self.channels;
        let limit = ports::place_limit(ports);
        let tidied = rounds::tidy(nodes, limit, channels);
        let channels = tidied.channels;
        let moves = tidied.moves;
        TidyDecision {
            tidied: Tidied {
                table: RingTable {
                    channels,
                    ports,
                    nodes,
                },
                answer: Ok(TidyCounts {
                    rounds: tidied.rounds,
                    moves: moves.count as u8,
                }),
            },
            moves,
        }
    }

    // The table as it was, and the refusal.
    fn refuse_tidy(self, refusal: Refusal) -> TidyDecision
        ensures { result ≡ tidying_by self (Err refusal) }
    {
        TidyDecision {
            tidied: Tidied {
                table: self,
                answer: Err(refusal),
            },
            moves: MoveList::none(),
        }
    }

    // A tidying by value, of a table that meets the ring rules.
    pub fn decide_tidy_valid(self, lent: usize) -> TidyDecision
        requires { meets_rules self ≡ true }
        ensures answer { result ≡ decide_tidy_of self lent }
        ensures numbers { tidying_answer result.tidied.answer ≡ answer_by (tidy_reasons self lent) (tidy_values self) }
        ensures tidies { TidiesBy self lent result.tidied (recorded result.moves) }
    {
        if lent < TIDY_RECORDS {
            return self.refuse_tidy(Refusal::ShortList);
        }
        self.tidy_rounds()
    }

    // A tidying by value: the table, the answer and the moves, for a lent list of so many records.
    pub fn decide_tidy(self, lent: usize) -> TidyDecision
        ensures answer { result ≡ decide_tidy_of self lent }
        ensures numbers { tidying_answer result.tidied.answer ≡ answer_by (tidy_reasons self lent) (tidy_values self) }
        ensures tidies { meets_rules self ≡ true → TidiesBy self lent result.tidied (recorded result.moves) }
    {
        if !self.meets_rules() {
            return self.refuse_tidy(Refusal::BrokenRule);
        }
        self.decide_tidy_valid(lent)
    }

    // Circuits that stand apart are joined until no pair can be. The table comes back with the answer, and the first records of the lent
    // list, which has at least 128, name the moves.
    pub fn tidy(self, moves: &mut [Move]) -> Tidied
        ensures answer { result ≡ tidy_of self moves.old }
        ensures list { moves.new ≡ tidy_lent_after self moves.old }
        ensures numbers { tidying_answer result.answer ≡ answer_by (tidy_reasons self (length moves.old)) (tidy_values self) }
        ensures tidies { meets_rules self ≡ true → TidiesLent self moves.old result moves.new }
    {
        let decision = self.decide_tidy(moves.len());
        moves::write_list(moves, decision.moves);
        decision.tidied
    }
}
