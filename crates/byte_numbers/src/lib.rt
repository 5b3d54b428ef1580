// Numbers as bytes, written and read: up to four bytes, the highest first; and the map, two 64-bit words with the lowest byte first.

#![tactic(auto)]

ghost use Rattle.std.specs.Prelude.{◌≡◌, ◌+◌, ◌*◌, ◌^◌, ◌≤◌, ◌<◌, length, take, drop};
ghost use Rattle.lit_words.specs.Lit.{word, words_of};
ghost use Rattle.buffer.specs.Put.{Room, Put};
ghost use Rattle.form.specs.Bytes.{high_first, number_in};
ghost use Rattle.form.specs.Form.{map_width};
ghost use Rattle.form.specs.Reading.{map_bit};
ghost use Rattle.byte_numbers.specs.Widths.{most_bytes, Wide};
ghost use Rattle.byte_numbers.specs.MapWords.{low_first, words_bytes};

use lit_words::Lit;

// The bytes of a number of 32 bits at most.
const MOST_BYTES: usize = 4;

// Writes a number as so many bytes, highest first.
pub fn put_number(out: &mut [u8], at: usize, value: u32, width: usize) -> usize
    requires { Wide width value × Room out.old at (high_first width value) }
    ensures { Put out.old at (high_first width value) out.new result }
{
    let bytes = value.to_be_bytes();
    buffer::put_text(out, at, &bytes[MOST_BYTES - width..])
}

// A number moved up by a byte, with that byte as its lowest.
fn with_byte(value: u64, byte: u8) -> u64
    requires { value < 2 ^ 56 }
    ensures { (result ≡ value * 256 + byte) × (byte < 256) }
{
    value * 256 + u64::from(byte)
}

// The number that up to four bytes are, the highest first.
pub fn number_of(bytes: &[u8]) -> u32
    requires { length bytes.now ≤ most_bytes }
    ensures { (result ≡ number_in bytes.now) × (result < 256 ^ length bytes.now) }
{
    let mut value: u64 = 0;
    for byte in bytes {
        value = with_byte(value, *byte);
    }
    value as u32
}

// Writes the eight bytes of a word, lowest first.
fn put_word(out: &mut [u8], start: usize, word: u64) -> usize
    requires { Room out.old start (low_first 8 word) }
    ensures { Put out.old start (low_first 8 word) out.new result }
{
    buffer::put_text(out, start, &word.to_le_bytes())
}

// Writes the map: the words of the lit places.
pub fn put_map(out: &mut [u8], at: usize, lit: Lit) -> usize
    requires { Room out.old at (words_bytes lit) }
    ensures { Put out.old at (words_bytes lit) out.new result }
{
    let next = put_word(out, at, lit.low);
    put_word(out, next, lit.high)
}

// Reads the word of the map that begins at `start`: of the 64 places from 8 × `first` on, its bytes from the highest down.
fn read_word(form: &[u8], start: usize, first: usize) -> u64
    requires { (start + map_width ≤ length form.now) × (first ≤ 8) }
    ensures { result ≡ word (map_bit (take map_width (drop start form.now))) 64 (8 * first) }
{
    let mut word: u64 = 0;
    for i in (0..8usize).rev() {
        word = with_byte(word, form[start + first + i]);
    }
    word
}

// Reads the map at start as the words of the lit places.
pub fn read_map(form: &[u8], start: usize) -> Lit
    requires { start + map_width ≤ length form.now }
    ensures { result ≡ words_of (map_bit (take map_width (drop start form.now))) }
{
    let low = read_word(form, start, 0);
    let high = read_word(form, start, 8);
    Lit { low, high }
}
