// An optional field: whether its bit of the field map stands, and its value, which is then not 0.

ghost use Rattle.std.specs.Prelude.{◌≡◌, ◌≤◌, ◌<◌, length, drop};
ghost use Rattle.lit_words.specs.Lit.{bit_of};
ghost use Rattle.form.specs.Reading.{read_optional};
ghost use Rattle.byte_numbers.specs.Widths.{most_bytes};
ghost use Rattle.decode_record.specs.Found.{OptionalAt};

use refusals::Refusal;

// Whether a bit of a field map stands, 0 being the lowest.
pub fn stands(map: u8, bit: u8) -> bool
    requires { bit < 8 }
    ensures { result ≡ bit_of map bit }
{
    (map >> bit) % 2 == 1
}

// Reads an optional field of so many bytes, if its bit of the field map stands, and gives the position after it.
pub fn read_optional(
    form: &[u8],
    at: usize,
    width: usize,
    stands: bool,
) -> Result<(u32, usize), Refusal>
    requires { (at ≤ length form.now) × (width ≤ most_bytes) }
    ensures { OptionalAt width form.now result (read_optional width stands (drop at form.now)) }
{
    if !stands {
        return Ok((0, at));
    }
    if form.len() - at < width {
        return Err(Refusal::CutShort);
    }
    let next = at + width;
    let value = byte_numbers::number_of(&form[at..next]);
    if value == 0 {
        return Err(Refusal::BadField);
    }
    Ok((value, next))
}
