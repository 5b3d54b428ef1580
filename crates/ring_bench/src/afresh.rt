// The loads counted afresh for each link: what the benchmark compares the walk with. It gives the same loads, by the same definition.

ghost use Rattle.std.specs.Prelude.{◌≡◌, ◌++◌, ◌*◌, ◌<◌, ◌≤◌, length, drop};
ghost use Rattle.limits.specs.Limits.{most_wavelengths};
ghost use Rattle.lightpath.specs.Place.{place_of};
ghost use Rattle.lightpath.specs.Circuit.{users};
ghost use Rattle.slots.specs.Slot.{held};
ghost use Rattle.channels.specs.Channels.{at};
ghost use Rattle.load.specs.Load.{link_load, loads};

use channels::Channel;
use lightpath::{Direction, Wavelength};
use limits::{MOST_WAVELENGTHS, PLACE_COUNT};
use slots::Slot;

// How many of the circuits of a place, lightpaths in its direction, use a link.
fn users(nodes: u8, direction: Direction, link: u8, slot: Slot) -> u8
    requires { 0 < nodes }
    ensures { result ≡ users nodes direction link (held slot) }
{
    match slot {
        Slot::Unlit => 0,
        Slot::Alone(a) => a.uses(nodes, direction, link) as u8,
        Slot::Shared(a, b) => {
            a.uses(nodes, direction, link) as u8 + b.uses(nodes, direction, link) as u8
        }
    }
}

// How many lightpaths of a wavelength in a direction use a link.
fn users_on(
    nodes: u8,
    channels: [Channel; PLACE_COUNT],
    wavelength: u8,
    direction: Direction,
    link: u8,
) -> u8
    requires { (0 < nodes) × (wavelength < most_wavelengths) }
    ensures { result ≡ users nodes direction link (held (at channels (place_of wavelength direction))) }
{
    let place = Wavelength(wavelength).place(direction);
    let slot = channels::slot_at(channels, place.0 as usize);
    users(nodes, direction, link, slot)
}

// The number of lightpaths over a link in a direction.
fn link_load(nodes: u8, channels: [Channel; PLACE_COUNT], direction: Direction, link: u8) -> u8
    requires { 0 < nodes }
    ensures { result ≡ link_load nodes channels direction link }
{
    let mut sum: u8 = 0;
    for w in 0..MOST_WAVELENGTHS {
        sum += users_on(nodes, channels, w, direction, link);
    }
    sum
}

// The loads of every link, each way, into the first bytes of a buffer that has room for them.
pub fn fill(nodes: u8, channels: [Channel; PLACE_COUNT], out: &mut [u8])
    requires { (0 < nodes) × (2 * nodes ≤ length out.old) }
    ensures { out.new ≡ loads nodes channels ++ drop (2 * nodes) out.old }
{
    for link in 0..nodes {
        let at = 2 * link as usize;
        out[at] = link_load(nodes, channels, Direction::Clockwise, link + 1);
        out[at + 1] = link_load(nodes, channels, Direction::Counterclockwise, link + 1);
    }
}
