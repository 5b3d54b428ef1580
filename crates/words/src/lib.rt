// The words of a line, parted by single spaces and found by position: where one ends, whether it is a given one, and the number that it is.

#![tactic(auto)]

ghost use Rattle.std.specs.Prelude.{◌≡◌, ◌+◌, [], drop, MatchOption};
ghost use Rattle.words.specs.Split.{other_words, word_length};
ghost use Rattle.words.specs.Field.{NextWord, FieldAt};
ghost use Rattle.words.specs.SignedField.{SignedFieldAt};

// The most that fields of 8, 16 and 32 bits hold.
pub const MOST_U8: u64 = u8::MAX as u64;

pub const MOST_U16: u64 = u16::MAX as u64;

pub const MOST_U32: u64 = u32::MAX as u64;

// How long the word is that a text begins with: to the first space, or to the text's end.
fn word_length(text: &[u8]) -> usize
    ensures { result ≡ word_length text.now }
{
    text.iter()
        .position(|byte| *byte == b' ')
        .unwrap_or(text.len())
}

// The end of the word that begins at a position: the next space, or the line's end.
pub fn word_end(line: &[u8], at: usize) -> usize
    ensures { result ≡ at + word_length (drop at line.now) }
{
    if line.len() < at {
        return at;
    }
    at + word_length(&line[at..])
}

// The word after the one that ends at a position, and its end; none at the line's end.
pub fn next_word(line: &[u8], at: usize) -> Option<(&[u8], usize)>
    ensures { MatchOption result (other_words (drop at line.now) ≡ []) (λ next. NextWord line.now at next.0.now next.1) }
{
    if line.len() <= at {
        return None;
    }
    let start = at + 1;
    let end = word_end(line, start);
    Some((&line[start..end], end))
}

// Reads the word after the one that ends at a position, as a number of at most `most`: the number, and the word's end.
pub fn read_field(line: &[u8], at: usize, most: u64) -> Option<(u64, usize)>
    ensures { FieldAt (most + 1) line.now at result }
{
    let (word, end) = next_word(line, at)?;
    let value = text::read_number(word, most)?;
    Some((value, end))
}

// Reads the word after the one that ends at a position, as a signed number of 32 bits: the number, and the word's end.
pub fn read_signed_field(line: &[u8], at: usize) -> Option<(i32, usize)>
    ensures { SignedFieldAt line.now at result }
{
    let (word, end) = next_word(line, at)?;
    let value = text::read_signed(word)?;
    Some((value, end))
}
