// The rows of a roster: where the circuits of a node stand, found in a few steps.

#![tactic(auto)]

ghost use Rattle.std.specs.Prelude.{◌≡◌, ◌<◌, length, MatchOption};
ghost use Rattle.entries.specs.Lists.{Rising};
ghost use Rattle.rows.specs.Row.{row_in, position_in};

use entries::NEXT_ROW;

// The row of a node: from the entry at `start` to the one before `end`.
#[derive(Clone, Copy)]
pub struct Row {
    pub start: usize,
    pub end: usize,
}

// The row of a node among keys.
pub fn row_of(keys: &[u64], node: u8) -> Row
    requires { Rising keys.now }
    ensures { result ≡ row_in keys.now node }
{
    let first = entries::row_key(node);
    Row {
        start: entries::rank(keys, first),
        end: entries::rank(keys, first + NEXT_ROW),
    }
}

// Where a number stands in the row of a node, among keys: a search by halves.
pub fn position(keys: &[u64], node: u8, number: u32) -> Option<usize>
    requires { Rising keys.now }
    ensures { MatchOption result (position_in keys.now node number ≡ length keys.now) (λ i. (i ≡ position_in keys.now node number) × (i < length keys.now)) }
{
    let key = entries::row_key(node) + u64::from(number);
    let at = entries::rank(keys, key);
    if at < keys.len() && keys[at] == key {
        return Some(at);
    }
    None
}
