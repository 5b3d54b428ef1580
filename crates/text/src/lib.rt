// Decimal numbers as bytes: written into a lent buffer, and read back.

#![tactic(auto)]

ghost use Rattle.std.specs.Prelude.{◌≡◌, ◌+◌};
ghost use Rattle.buffer.specs.Put.{Put, Room};
ghost use Rattle.text.specs.Decimal.{decimal};
ghost use Rattle.text.specs.Number.{number};
ghost use Rattle.text.specs.Signed.{signed};

// The number that a word is in decimal, leading zeros allowed, where it is at most `most`.
pub fn read_number(word: &[u8], most: u64) -> Option<u64>
    ensures { result ≡ number (most + 1) word.now }
{
    if word.is_empty() {
        return None;
    }
    let mut value: u64 = 0;
    for byte in word {
        if !byte.is_ascii_digit() {
            return None;
        }
        let digit = u64::from(byte - b'0');
        value = value.checked_mul(10)?.checked_add(digit)?;
        if most < value {
            return None;
        }
    }
    Some(value)
}

// The most that a signed number of 32 bits is above zero, and the most below.
const MOST_ABOVE: u64 = i32::MAX as u64;

const MOST_BELOW: u64 = MOST_ABOVE + 1;

// The signed number of 32 bits that a word is in decimal, with `-` before its digits where it is below zero.
pub fn read_signed(word: &[u8]) -> Option<i32>
    ensures { result ≡ signed word.now }
{
    match word.strip_prefix(b"-") {
        Some(digits) => {
            let below = read_number(digits, MOST_BELOW)?;
            Some(-(below as i64) as i32)
        }
        None => {
            let above = read_number(word, MOST_ABOVE)?;
            Some(above as i32)
        }
    }
}

// Writes a number in decimal at a position and gives the position after it.
pub fn put_number(out: &mut [u8], at: usize, n: u32) -> usize
    requires { Room out.old at (decimal n) }
    ensures { Put out.old at (decimal n) out.new result }
{
    if n < 10 {
        return buffer::put_byte(out, at, b'0' + n as u8);
    }
    let next = put_number(out, at, n / 10);
    buffer::put_byte(out, next, b'0' + (n % 10) as u8)
}
