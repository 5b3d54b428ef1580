// An optional field: its bit of the field map, its length, and its bytes, which are none where it is 0.

ghost use Rattle.std.specs.Prelude.{◌≡◌, ◌≤◌, length};
ghost use Rattle.basis.specs.Choice.{bit};
ghost use Rattle.buffer.specs.Put.{Room, Put};
ghost use Rattle.form.specs.Form.{present as Form·present, optional_bytes};
ghost use Rattle.byte_numbers.specs.Widths.{Wide};

// 1 where an optional field is there: its bit of the field map.
pub fn present(value: u32) -> u8
    ensures { (result ≡ bit (Form·present value)) × (result ≤ 1) }
{
    u8::from(value != 0)
}

// How many bytes an optional field takes.
pub fn optional_length(value: u32, width: usize) -> usize
    ensures { (result ≡ length (optional_bytes width value)) × (result ≤ width) }
{
    if value == 0 { 0 } else { width }
}

// Writes an optional field of so many bytes, where it is there.
pub fn put_optional(out: &mut [u8], at: usize, value: u32, width: usize) -> usize
    requires { Wide width value × Room out.old at (optional_bytes width value) }
    ensures { Put out.old at (optional_bytes width value) out.new result }
{
    if value == 0 {
        at
    } else {
        byte_numbers::put_number(out, at, value, width)
    }
}
