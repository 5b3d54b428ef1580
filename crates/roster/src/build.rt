// Building a roster from a table, and a table from a roster; and the test of a roster.

ghost use Rattle.std.specs.Prelude.{◌≡◌, true, not, [], ◌∷◌, ◌≤◌};
ghost use Rattle.limits.specs.Limits.{most_circuits};
ghost use Rattle.refusals.specs.Answer.{verdict_answer, answer_by, ◌when◌};
ghost use Rattle.ring.specs.Table.{meets_rules};
ghost use Rattle.roster.specs.Roster.{arranged, table_of, same_entries, stands, built_of, table_built};

use crate::held::{hold_first, table_in};
use crate::{Built, Roster};
use limits::MOST_CIRCUITS;
use refusals::Refusal;
use ring::{Answered, RingTable};

impl Roster {
    // The roster of a table that meets the ring rules.
    pub fn of_valid(table: RingTable) -> Roster
        requires { meets_rules table ≡ true }
        ensures roster { result ≡ arranged table }
        ensures back { (stands result ≡ true) × (table_of result ≡ table) }
    {
        let mut keys = [0; MOST_CIRCUITS];
        let mut rests = [0; MOST_CIRCUITS];
        let heading = hold_first(&mut keys, &mut rests, table);
        Roster {
            keys,
            rests,
            heading,
        }
    }

    // The roster of a table.
    pub fn of(table: RingTable) -> Built
        ensures answer { result ≡ built_of table }
        ensures numbers { verdict_answer result.verdict ≡ answer_by ((22 when not (meets_rules table)) ∷ []) [] }
        ensures back { meets_rules table ≡ true → (stands result.roster ≡ true) × (table_of result.roster ≡ table) }
    {
        if !table.meets_rules() {
            return Built {
                roster: Roster::blank(),
                verdict: Err(Refusal::BrokenRule),
            };
        }
        Built {
            roster: Roster::of_valid(table),
            verdict: Ok(()),
        }
    }

    // The table of a roster that has no more entries than there is room for.
    pub fn table_valid(self) -> RingTable
        requires { self.heading.count ≤ most_circuits }
        ensures { result ≡ table_of self }
    {
        table_in(self.heading, &self.keys, &self.rests)
    }

    // Whether two rosters of one ring have the same entries, and nothing else in the room left.
    fn same_entries(self, other: Roster) -> bool
        ensures { result ≡ same_entries self other }
    {
        self.heading.count == other.heading.count
            && self.keys == other.keys
            && self.rests == other.rests
    }

    // Whether the table of the roster meets the ring rules and gives it back.
    pub fn stands(self) -> bool
        ensures { result ≡ stands self }
    {
        if MOST_CIRCUITS < usize::from(self.heading.count) {
            return false;
        }
        let table = self.table_valid();
        table.meets_rules() && Roster::of_valid(table).same_entries(self)
    }

    // The table of a roster.
    pub fn table(self) -> Answered
        ensures answer { result ≡ table_built self }
        ensures numbers { verdict_answer result.verdict ≡ answer_by ((22 when not (stands self)) ∷ []) [] }
        ensures back { stands self ≡ true → (meets_rules result.table ≡ true) × (arranged result.table ≡ self) }
    {
        if !self.stands() {
            return Answered {
                table: RingTable::blank(),
                verdict: Err(Refusal::BrokenRule),
            };
        }
        Answered {
            table: self.table_valid(),
            verdict: Ok(()),
        }
    }
}
