// Entries that get other places: the circuits that an opening moves.

ghost use Rattle.std.specs.Prelude.{[], ◌∷◌, ◌≤◌, length};
ghost use Rattle.moves.specs.Records.{listed};
ghost use Rattle.roster_open.specs.InPlace.{Replaces};

use moves::{MOST_MOVES, Move, Moves};

// The entry of a circuit that has moved gets its new place.
fn replace(keys: &[u64], rests: &mut [u64], count: usize, moved: Move)
    requires { (count ≤ length keys.now) × (count ≤ length rests.old) }
    ensures { Replaces (moved ∷ []) keys.now rests.old count rests.new }
{
    if let Some(at) = entries::find_number(&keys[..count], moved.number) {
        let place = moved.to;
        rests[at] = entries::placed_at(rests[at], usize::from(place.0));
    }
}

// And so do those of all that have.
pub fn replace_all(keys: &[u64], rests: &mut [u64], count: usize, moves: Moves)
    requires { (count ≤ length keys.now) × (count ≤ length rests.old) }
    ensures { Replaces (listed moves) keys.now rests.old count rests.new }
{
    let most = usize::from(moves.count).min(MOST_MOVES);
    let all = [moves.first, moves.second, moves.third];
    for moved in &all[..most] {
        replace(keys, rests, count, *moved);
    }
}
