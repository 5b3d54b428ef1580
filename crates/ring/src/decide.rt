// Opening a circuit, and placing one with nothing asked.

ghost use Rattle.std.specs.Prelude.{◌≡◌, true, Ok};
ghost use Rattle.moves.specs.Records.{listed};
ghost use Rattle.ports.specs.Ports.{limit_of};
ghost use Rattle.rules.specs.Allowable.{Allowable};
ghost use Rattle.survey.specs.Survey.{survey_of};
ghost use Rattle.refusals.specs.Refusal.{judged};
ghost use Rattle.refusals.specs.Answer.{answer_by};
ghost use Rattle.causes.specs.Causes.{named_causes};
ghost use Rattle.ring.specs.Table.{meets_rules};
ghost use Rattle.ring.specs.Opening.{used_causes, placing, refusing, decided_by, decide_of};
ghost use Rattle.ring.specs.Answer.{opening_answer};
ghost use Rattle.ring.specs.Demand3.{Demand3};
ghost use Rattle.ring.specs.Numbers.{open_reasons, open_values};

use crate::{Decision, Opened, RingTable, Taken};
use lightpath::Circuit;
use moves::Moves;
use refusals::Refusal;
use survey::Survey;

impl RingTable {
    // A circuit is placed by what was seen of the places: they are changed here and nowhere else.
    fn place_seen(self, circuit: Circuit, limit: usize, seen: Survey) -> Decision
        requires { (meets_rules self ≡ true) × Allowable self.nodes self.ports self.channels circuit × (limit ≡ limit_of self.ports) × (seen ≡ survey_of self.nodes limit self.channels circuit) }
        ensures { result ≡ placing self circuit }
    {
        let nodes = self.nodes;
        let ports = self.ports;
        let channels = self.channels;
        let planned = plan::plan_for(nodes, limit, channels, circuit, seen);
        let changes = planned.changes;
        let place = planned.place;
        let moves = planned.moves;
        let channels = channels::changed(channels, changes);
        Decision {
            opened: Opened {
                table: RingTable {
                    channels,
                    ports,
                    nodes,
                },
                answer: Ok(Taken {
                    place,
                    moves: moves.count,
                    looks: planned.looks,
                }),
            },
            moves,
        }
    }

    // A circuit is placed by document 01's steps with nothing asked, in a table that meets the ring rules and whose ports permit it.
    pub fn place(self, circuit: Circuit) -> Decision
        requires { (meets_rules self ≡ true) × Allowable self.nodes self.ports self.channels circuit }
        ensures { result ≡ placing self circuit }
    {
        let nodes = self.nodes;
        let ports = self.ports;
        let channels = self.channels;
        let limit = ports::place_limit(ports);
        let seen = survey::survey_places(nodes, limit, channels, circuit);
        self.place_seen(circuit, limit, seen)
    }

    // The table as it was, and the refusal.
    fn refuse(self, refusal: Refusal) -> Decision
        ensures { result ≡ refusing self refusal }
    {
        Decision {
            opened: Opened {
                table: self,
                answer: Err(refusal),
            },
            moves: Moves::none(),
        }
    }

    // An opening of a table that meets the ring rules, of a request that names two nodes of the ring: by what is seen of the places.
    fn decide_named(self, circuit: Circuit) -> Decision
        requires { (meets_rules self ≡ true) × (judged (named_causes self.nodes circuit) ≡ Ok tt) }
        ensures { result ≡ decided_by self circuit (judged (used_causes self circuit)) }
    {
        let nodes = self.nodes;
        let ports = self.ports;
        let channels = self.channels;
        let limit = ports::place_limit(ports);
        let seen = survey::survey_places(nodes, limit, channels, circuit);
        match causes::used_verdict(ports, circuit, seen) {
            Ok(()) => self.place_seen(circuit, limit, seen),
            Err(refusal) => self.refuse(refusal),
        }
    }

    // An opening by value, of a table that meets the ring rules.
    pub fn decide_valid(self, circuit: Circuit, lent: usize) -> Decision
        requires { meets_rules self ≡ true }
        ensures answer { result ≡ decide_of self circuit lent }
        ensures numbers { opening_answer result.opened.answer ≡ answer_by (open_reasons self circuit lent) (open_values self circuit) }
        ensures demand3 { Demand3 self circuit lent result.opened (listed result.moves) }
    {
        match causes::named_verdict(self.nodes, circuit, lent) {
            Ok(()) => self.decide_named(circuit),
            Err(refusal) => self.refuse(refusal),
        }
    }

    // An opening by value: the table, the answer and the moves, for a circuit and a lent list of so many records.
    pub fn decide(self, circuit: Circuit, lent: usize) -> Decision
        ensures answer { result ≡ decide_of self circuit lent }
        ensures numbers { opening_answer result.opened.answer ≡ answer_by (open_reasons self circuit lent) (open_values self circuit) }
        ensures demand3 { meets_rules self ≡ true → Demand3 self circuit lent result.opened (listed result.moves) }
    {
        if !self.meets_rules() {
            return self.refuse(Refusal::BrokenRule);
        }
        self.decide_valid(circuit, lent)
    }
}
