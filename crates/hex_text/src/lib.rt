// Bytes as hexadecimal digits, two to a byte with the higher first, and back.

#![tactic(auto)]

ghost use Rattle.std.specs.Prelude.{◌≡◌, ◌*◌, ◌<◌, ◌≤◌, length};
ghost use Rattle.buffer.specs.Put.{Put, Room};
ghost use Rattle.hex_text.specs.Hex.{digit_of, pair_of, hex_of, no_digit, letter_value, value_of, byte_of, Unhexed};

// What stands for the value of a byte that is no digit: above every digit's. An Option of it costs branches, or more steps a digit.
const NO_DIGIT: u8 = 16;

// The digit of a value below 16.
fn digit(value: u8) -> u8
    requires { value < 16 }
    ensures { result ≡ digit_of value }
{
    if value < 10 {
        return b'0' + value;
    }
    b'a' + (value - 10)
}

// Writes the two digits of a byte.
fn put_pair(out: &mut [u8], at: usize, byte: u8) -> usize
    requires { Room out.old at (pair_of byte) }
    ensures { Put out.old at (pair_of byte) out.new result }
{
    let next = buffer::put_byte(out, at, digit(byte / 16));
    buffer::put_byte(out, next, digit(byte % 16))
}

// Writes the digits of some bytes at a position and gives the position after them.
pub fn put_hex(out: &mut [u8], at: usize, bytes: &[u8]) -> usize
    requires { Room out.old at (hex_of bytes.now) }
    ensures { Put out.old at (hex_of bytes.now) out.new result }
{
    let mut next = at;
    for byte in bytes {
        next = put_pair(out, next, *byte);
    }
    next
}

// The value of a digit that is a letter, or that there is none.
fn letter_value(digit: u8) -> u8
    ensures { result ≡ letter_value digit }
{
    let letter = digit.wrapping_sub(b'a');
    if letter < 6 { letter + 10 } else { NO_DIGIT }
}

// The value of a digit, or that there is none: both are worked out and one is taken, with no branch to guess.
fn value(digit: u8) -> u8
    ensures { (result ≡ value_of digit) × (result ≤ no_digit) }
{
    let numeral = digit.wrapping_sub(b'0');
    let other = letter_value(digit);
    if numeral < 10 { numeral } else { other }
}

// The byte of two digits.
fn byte(high: u8, low: u8) -> Option<u8>
    ensures { result ≡ byte_of high low }
{
    let high = value(high);
    let low = value(low);
    if NO_DIGIT <= high || NO_DIGIT <= low {
        return None;
    }
    Some(16 * high + low)
}

// Writes the bytes of a text of digits at the start of the lent bytes, up to the first two that are no byte's, and gives how many a text of
// digits alone is.
pub fn read_hex(word: &[u8], out: &mut [u8]) -> Option<usize>
    requires { length word.now ≤ 2 * length out.old }
    ensures { Unhexed word.now out.old out.new result }
{
    // By position: chunks of two take a step more for each byte.
    for i in 0..word.len() / 2 {
        buffer::put_byte(out, i, byte(word[2 * i], word[2 * i + 1])?);
    }
    if word.len() % 2 == 0 {
        Some(word.len() / 2)
    } else {
        None
    }
}
