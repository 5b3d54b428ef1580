// Bytes written into a lent buffer, each write from a position on.

#![tactic(auto)]

ghost use Rattle.std.specs.Prelude.{[], ◌∷◌};
ghost use Rattle.buffer.specs.Put.{Put, Room};

// Writes one byte at a position and gives the position after it.
pub fn put_byte(out: &mut [u8], at: usize, byte: u8) -> usize
    requires { Room out.old at (byte ∷ []) }
    ensures { Put out.old at (byte ∷ []) out.new result }
{
    out[at] = byte;
    at + 1
}

// Writes a text at a position and gives the position after it.
pub fn put_text(out: &mut [u8], at: usize, text: &[u8]) -> usize
    requires { Room out.old at text.now }
    ensures { Put out.old at text.now out.new result }
{
    let end = at + text.len();
    out[at..end].copy_from_slice(text);
    end
}
