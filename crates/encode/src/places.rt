// The records of all places: their length, and their bytes by rising place.

ghost use Rattle.std.specs.Prelude.{◌≡◌, ◌+◌, ◌*◌, ◌≤◌, length};
ghost use Rattle.limits.specs.Limits.{circuit_room};
ghost use Rattle.lit_words.specs.Lit.{ones_of};
ghost use Rattle.channels.specs.Channels.{lit_of};
ghost use Rattle.buffer.specs.Put.{Room, Put};
ghost use Rattle.form.specs.Form.{records_bytes};
ghost use Rattle.form.specs.Most.{circuit_most};

use channels::Channel;
use limits::PLACE_COUNT;

// How many bytes all circuits take; the records are longer by the number of lit places.
pub fn circuits_length(channels: &[Channel; PLACE_COUNT]) -> usize
    ensures { (result + ones_of (lit_of channels.now) ≡ length (records_bytes channels.now)) × (result ≤ circuit_room * circuit_most) }
{
    let mut sum: usize = 0;
    for channel in channels {
        sum += encode_record::slot_length(channel.slot);
    }
    sum
}

// Writes the records by rising place.
pub fn put_records(out: &mut [u8], start: usize, channels: &[Channel; PLACE_COUNT]) -> usize
    requires { Room out.old start (records_bytes channels.now) }
    ensures { Put out.old start (records_bytes channels.now) out.new result }
{
    let mut at = start;
    for channel in channels {
        at = encode_record::put_record(out, at, channel.slot);
    }
    at
}
