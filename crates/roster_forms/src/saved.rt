// Reading a saved form as a roster, and writing the form of one into lent bytes.

ghost use Rattle.std.specs.Prelude.{◌≡◌, true, [], ◌∷◌, length, Ok};
ghost use Rattle.refusals.specs.Answer.{verdict_answer, answer_by};
ghost use Rattle.roster.specs.Roster.{table_of, stands};
ghost use Rattle.form.specs.Form.{form_of};
ghost use Rattle.form.specs.Reading.{read_answer};
ghost use Rattle.encode.specs.Answer.{written_answer};
ghost use Rattle.roster_forms.specs.Forms.{read_roster, write_roster, write_roster_bytes, write_roster_reasons};

use refusals::{Refusal, Verdict};
use roster::{Built, Roster};

// Reads a form: the roster, or the blank one and the refusal. What is granted is a roster whose form is the bytes read.
pub fn read(form: &[u8]) -> Built
    ensures answer { result ≡ read_roster form.now }
    ensures numbers { verdict_answer result.verdict ≡ read_answer form.now }
    ensures back { result.verdict ≡ Ok tt → (stands result.roster ≡ true) × (form_of (table_of result.roster) ≡ form.now) }
{
    let read = decode::read(form);
    match read.verdict {
        Ok(()) => Built {
            roster: Roster::of_valid(read.table),
            verdict: Ok(()),
        },
        Err(refusal) => Built {
            roster: Roster::blank(),
            verdict: Err(refusal),
        },
    }
}

// Writes the form of a roster that stands.
pub fn write_valid(roster: Roster, out: &mut [u8]) -> Result<usize, Refusal>
    requires { stands roster ≡ true }
    ensures answer { result ≡ write_roster roster (length out.old) }
    ensures buffer { out.new ≡ write_roster_bytes roster out.old }
    ensures numbers { written_answer result ≡ answer_by (write_roster_reasons roster (length out.old)) (length (form_of (table_of roster)) ∷ []) }
{
    encode::write_valid(roster.table_valid(), out)
}

// Writes the form of a roster: 22 where it does not stand, 21 where the lent bytes are too few. The bytes after the form keep their values,
// and on a refusal all do.
pub fn write(roster: Roster, out: &mut [u8]) -> Result<usize, Refusal>
    ensures answer { result ≡ write_roster roster (length out.old) }
    ensures buffer { out.new ≡ write_roster_bytes roster out.old }
    ensures numbers { written_answer result ≡ answer_by (write_roster_reasons roster (length out.old)) (length (form_of (table_of roster)) ∷ []) }
{
    if !roster.stands() {
        return Err(Refusal::BrokenRule);
    }
    write_valid(roster, out)
}
