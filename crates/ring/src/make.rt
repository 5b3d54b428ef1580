// Making a ring.

ghost use Rattle.std.specs.Prelude.{◌≡◌, []};
ghost use Rattle.refusals.specs.Answer.{verdict_answer, answer_by};
ghost use Rattle.ring.specs.Making.{make_of};
ghost use Rattle.ring.specs.Numbers.{make_reasons};

use crate::{Answered, RingTable};
use refusals::Refusal;

impl RingTable {
    // A ring of so many nodes with a list of port counts, every place unlit.
    pub fn make(nodes: u8, ports: &[u8]) -> Answered
        ensures answer { result ≡ make_of nodes ports.now }
        ensures numbers { verdict_answer result.verdict ≡ answer_by (make_reasons nodes ports.now) [] }
    {
        if !causes::node_count_holds(nodes, ports) {
            return Answered {
                table: RingTable::blank(),
                verdict: Err(Refusal::NodeCount),
            };
        }
        let fields = causes::port_fields(ports);
        match causes::ports_verdict(fields) {
            Ok(()) => Answered {
                table: RingTable {
                    nodes,
                    ports: fields,
                    channels: channels::unlit_channels(),
                },
                verdict: Ok(()),
            },
            Err(refusal) => Answered {
                table: RingTable::blank(),
                verdict: Err(refusal),
            },
        }
    }
}
