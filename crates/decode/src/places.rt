// Reading the records by rising place.

ghost use Rattle.std.specs.Prelude.{◌≤◌, ◌<◌, length, drop};
ghost use Rattle.limits.specs.Limits.{place_count};
ghost use Rattle.lit_words.specs.Lit.{lit_bit};
ghost use Rattle.form.specs.Reading.{read_place, read_records};
ghost use Rattle.decode_record.specs.Found.{FieldAt};

use channels::Channel;
use limits::PLACE_COUNT;
use lit_words::Lit;
use refusals::Refusal;
use slots::Slot;

// Reads what a place holds, by the words of the map.
fn read_content(form: &[u8], at: usize, lit: Lit, place: usize) -> Result<(Slot, usize), Refusal>
    requires { (at ≤ length form.now) × (place < place_count) }
    ensures { FieldAt form.now result (read_place (lit_bit lit place) (drop at form.now)) }
{
    decode_record::read_place(form, at, lit.is_lit(place))
}

// Reads the records of all places.
pub fn read_records(
    form: &[u8],
    start: usize,
    lit: Lit,
) -> Result<([Channel; PLACE_COUNT], usize), Refusal>
    requires { start ≤ length form.now }
    ensures { FieldAt form.now result (read_records (lit_bit lit) place_count 0 (drop start form.now)) }
{
    let mut channels = channels::unlit_channels();
    let mut at = start;
    for place in 0..PLACE_COUNT {
        let (slot, next) = read_content(form, at, lit, place)?;
        channels[place] = Channel { slot };
        at = next;
    }
    Ok((channels, at))
}
