// Closing a circuit, in place.

ghost use Rattle.ring.specs.Closing.{close_of};
ghost use Rattle.roster.specs.Held.{table_in, HoldsTable};
ghost use Rattle.roster_open.specs.InPlace.{ClosesIn};

use crate::ClosedIn;
use refusals::Refusal;
use roster::Heading;

// The entry of the circuit of a number is taken out, and no other circuit's place changes.
pub fn close_in(heading: Heading, keys: &mut [u64], rests: &mut [u64], number: u32) -> ClosedIn
    requires { HoldsTable (table_in heading keys.old rests.old) heading keys.old rests.old }
    ensures { ClosesIn (close_of (table_in heading keys.old rests.old) number) keys.new rests.new result }
{
    let count = heading.count as usize;
    let Some(at) = entries::find_number(&keys[..count], number) else {
        return ClosedIn {
            heading,
            verdict: Err(Refusal::NotLive),
        };
    };
    entries::take_out(keys, at, count);
    entries::take_out(rests, at, count);
    ClosedIn {
        heading: Heading {
            count: heading.count - 1,
            ..heading
        },
        verdict: Ok(()),
    }
}
