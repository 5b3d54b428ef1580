// Closing a circuit.

ghost use Rattle.std.specs.Prelude.{◌≡◌, true, []};
ghost use Rattle.refusals.specs.Answer.{verdict_answer, answer_by};
ghost use Rattle.ring.specs.Table.{meets_rules};
ghost use Rattle.ring.specs.Closing.{close_of};
ghost use Rattle.ring.specs.Numbers.{close_reasons};

use crate::{Answered, RingTable};
use refusals::Refusal;

impl RingTable {
    // A closing of a table that meets the ring rules.
    pub fn close_valid(self, number: u32) -> Answered
        requires { meets_rules self ≡ true }
        ensures answer { result ≡ close_of self number }
        ensures numbers { verdict_answer result.verdict ≡ answer_by (close_reasons self number) [] }
    {
        let nodes = self.nodes;
        let ports = self.ports;
        let channels = self.channels;
        let Some(place) = channels::where_is(channels, number) else {
            return Answered {
                table: self,
                verdict: Err(Refusal::NotLive),
            };
        };
        let channels = channels::without_circuit(channels, number, place);
        Answered {
            table: RingTable {
                nodes,
                ports,
                channels,
            },
            verdict: Ok(()),
        }
    }

    // The circuit of a number is taken off its place, and nothing else changes.
    pub fn close(self, number: u32) -> Answered
        ensures answer { result ≡ close_of self number }
        ensures numbers { verdict_answer result.verdict ≡ answer_by (close_reasons self number) [] }
    {
        if !self.meets_rules() {
            return Answered {
                table: self,
                verdict: Err(Refusal::BrokenRule),
            };
        }
        self.close_valid(number)
    }
}
