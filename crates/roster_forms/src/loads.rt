// The load report of a roster: how many lightpaths run over each link, each way.

ghost use Rattle.std.specs.Prelude.{◌≡◌, true, [], length};
ghost use Rattle.refusals.specs.Answer.{verdict_answer, answer_by};
ghost use Rattle.roster.specs.Roster.{stands};
ghost use Rattle.roster_forms.specs.Forms.{report_roster, report_roster_bytes, report_roster_reasons};

use refusals::{Refusal, Verdict};
use roster::Roster;

// The load report of a roster that stands.
pub fn report_valid(roster: Roster, out: &mut [u8]) -> Verdict
    requires { stands roster ≡ true }
    ensures answer { result ≡ report_roster roster (length out.old) }
    ensures buffer { out.new ≡ report_roster_bytes roster out.old }
    ensures numbers { verdict_answer result ≡ answer_by (report_roster_reasons roster (length out.old)) [] }
{
    load::report_valid(roster.table_valid(), out)
}

// The load report: for link 1 to N the number of lightpaths clockwise and then counterclockwise, one byte each.
pub fn report(roster: Roster, out: &mut [u8]) -> Verdict
    ensures answer { result ≡ report_roster roster (length out.old) }
    ensures buffer { out.new ≡ report_roster_bytes roster out.old }
    ensures numbers { verdict_answer result ≡ answer_by (report_roster_reasons roster (length out.old)) [] }
{
    if !roster.stands() {
        return Err(Refusal::BrokenRule);
    }
    report_valid(roster, out)
}
