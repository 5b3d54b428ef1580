// A circuit, read at a position of the form.

ghost use Rattle.std.specs.Prelude.{◌≤◌, length, drop};
ghost use Rattle.form.specs.Reading.{read_circuit};
ghost use Rattle.decode_record.specs.Found.{FieldAt};

use crate::optional;
use form::{ACCOUNT_WIDTH, NUMBER_WIDTH, PLAIN_WIDTH, REMARK_WIDTH};
use lightpath::Circuit;
use refusals::Refusal;

// Reads a circuit, with a remark and with an account where their bits of the field map stand, and gives the position after it.
pub fn read_circuit(
    form: &[u8],
    at: usize,
    remarked: bool,
    billed: bool,
) -> Result<(Circuit, usize), Refusal>
    requires { at ≤ length form.now }
    ensures { FieldAt form.now result (read_circuit remarked billed (drop at form.now)) }
{
    if form.len() - at < PLAIN_WIDTH {
        return Err(Refusal::CutShort);
    }
    let ends = at + NUMBER_WIDTH;
    let number = byte_numbers::number_of(&form[at..ends]);
    let (remark, next) = optional::read_optional(form, ends + 2, REMARK_WIDTH, remarked)?;
    let (account, end) = optional::read_optional(form, next, ACCOUNT_WIDTH, billed)?;
    let circuit = Circuit {
        number,
        source: form[ends],
        destination: form[ends + 1],
        remark: remark as u16,
        account,
    };
    Ok((circuit, end))
}
