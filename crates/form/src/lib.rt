// The saved form of a ring table: how long its parts are, its definition, and the laws of writing and reading it.

#![tactic(auto)]

ghost use Rattle.std.specs.Prelude.{◌≡◌, true, ◌≤◌, length};
ghost use Rattle.ring.specs.Table.{meets_rules};
ghost use Rattle.ring.specs.declared.RingTable.{RingTable};
ghost use Rattle.form.specs.Form.{form_of, longest_form};

// The bytes of the map.
pub const MAP_WIDTH: usize = 16;

// The bytes of a circuit's number.
pub const NUMBER_WIDTH: usize = 4;

// The bytes of the fields that every circuit has: its number, source and destination.
pub const PLAIN_WIDTH: usize = NUMBER_WIDTH + 2;

// The bytes of a remark.
pub const REMARK_WIDTH: usize = 2;

// The bytes of an account.
pub const ACCOUNT_WIDTH: usize = 4;

// The most bytes that a form takes.
pub const LONGEST_FORM: usize = 2513;

// So many bytes have room for the form of every table that meets the ring rules.
pub fn longest_form() -> usize
    ensures length { result ≡ longest_form }
    ensures room { (t : RingTable) → meets_rules t ≡ true → length (form_of t) ≤ result }
{
    LONGEST_FORM
}
