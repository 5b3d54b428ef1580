// The geometry of the ring: directions, wavelengths and places, and circuits on it. A node, a link and a port count are bytes;
// what counts hops asks for at least one node, since hops are counted modulo the number of nodes.

#![tactic(auto)]

ghost use Rattle.std.specs.Prelude.{◌≡◌, ◌+◌, ◌*◌, ◌<◌};
ghost use Rattle.limits.specs.Limits.{place_count};
ghost use Rattle.lightpath.specs.Place.{place_of, wavelength_of, direction_of, other_way};
ghost use Rattle.lightpath.specs.Circuit.{on_ring, joins, ahead, hops, uses, shorter_way, adjacent, can_share, share_direction};

// The two ways round the ring.
#[derive(Clone, Copy, Debug, PartialEq, Eq)]
pub enum Direction {
    Clockwise,
    Counterclockwise,
}

// A wavelength number: it counts within one direction.
#[derive(Clone, Copy, Debug, PartialEq, Eq)]
pub struct Wavelength(pub u8);

// A directed wavelength number, which document 01 calls a place: it counts both directions.
#[derive(Clone, Copy, Debug, PartialEq, Eq)]
pub struct Place(pub u8);

// A circuit from one node to another. Several may join the same nodes; a remark of 0 is none, and so is an account of 0.
#[derive(Clone, Copy, Debug, PartialEq, Eq)]
pub struct Circuit {
    pub number: u32,
    pub source: u8,
    pub destination: u8,
    pub remark: u16,
    pub account: u32,
}

// A circuit with all fields zero.
pub const BLANK_CIRCUIT: Circuit = Circuit {
    number: 0,
    source: 0,
    destination: 0,
    remark: 0,
    account: 0,
};

impl Direction {
    // The other way round.
    pub fn other(self) -> Direction
        ensures { result ≡ other_way self }
    {
        match self {
            Direction::Clockwise => Direction::Counterclockwise,
            Direction::Counterclockwise => Direction::Clockwise,
        }
    }
}

impl Wavelength {
    // The place of the wavelength in a direction.
    pub fn place(self, direction: Direction) -> Place
        requires { self.0 < place_count }
        ensures { result.0 ≡ place_of self.0 direction }
    {
        match direction {
            Direction::Clockwise => Place(2 * self.0),
            Direction::Counterclockwise => Place(2 * self.0 + 1),
        }
    }
}

impl Place {
    // The wavelength of the place.
    pub fn wavelength(self) -> Wavelength
        ensures { result.0 ≡ wavelength_of self.0 }
    {
        Wavelength(self.0 / 2)
    }

    // The direction of the place.
    pub fn direction(self) -> Direction
        ensures { result ≡ direction_of self.0 }
    {
        if self.0 % 2 == 0 {
            Direction::Clockwise
        } else {
            Direction::Counterclockwise
        }
    }
}

// Whether a node, or a link, is on a ring of so many nodes.
pub fn on_ring(nodes: u8, node: u8) -> bool
    ensures { result ≡ on_ring nodes node }
{
    (1..=nodes).contains(&node)
}

// The number of links clockwise from one node to another.
pub fn links_ahead(nodes: u8, from: u8, to: u8) -> u16
    requires { 0 < nodes }
    ensures { (result ≡ ahead nodes from to) × (result < nodes) }
{
    (u16::from(to) + u16::from(nodes)).saturating_sub(u16::from(from)) % u16::from(nodes)
}

impl Circuit {
    // Whether source and destination are on the ring and different.
    pub fn joins(self, nodes: u8) -> bool
        ensures { result ≡ joins nodes self }
    {
        on_ring(nodes, self.source)
            && on_ring(nodes, self.destination)
            && self.source != self.destination
    }

    // The number of links that the circuit uses clockwise.
    pub fn hops(self, nodes: u8) -> u16
        requires { 0 < nodes }
        ensures { (result ≡ hops nodes self) × (result < nodes) }
    {
        links_ahead(nodes, self.source, self.destination)
    }

    // Whether the circuit's lightpath in a direction uses a link.
    pub fn uses(self, nodes: u8, direction: Direction, link: u8) -> bool
        requires { 0 < nodes }
        ensures { result ≡ uses nodes direction self link }
    {
        let distance = links_ahead(nodes, self.source, link);
        let hops = self.hops(nodes);
        match direction {
            Direction::Clockwise => distance < hops,
            Direction::Counterclockwise => hops <= distance,
        }
    }

    // The direction in which the circuit uses fewer links, clockwise if it uses as many in both.
    pub fn shorter_way(self, nodes: u8) -> Direction
        requires { 0 < nodes }
        ensures { result ≡ shorter_way nodes self }
    {
        let hops = self.hops(nodes);
        if hops <= u16::from(nodes) - hops {
            Direction::Clockwise
        } else {
            Direction::Counterclockwise
        }
    }

    // Whether the destination of one circuit is the source of the other.
    pub fn adjacent(self, other: Circuit) -> bool
        ensures { result ≡ adjacent self other }
    {
        self.destination == other.source || other.destination == self.source
    }

    // Whether the two are adjacent and can share a wavelength in a direction.
    pub fn can_share(self, other: Circuit, nodes: u8, direction: Direction) -> bool
        requires { 0 < nodes }
        ensures { result ≡ can_share nodes direction self other }
    {
        // Asked first: most pairs are not adjacent, and hops cost a division each.
        if !self.adjacent(other) {
            return false;
        }
        let total = self.hops(nodes) + other.hops(nodes);
        match direction {
            Direction::Clockwise => total <= u16::from(nodes),
            Direction::Counterclockwise => u16::from(nodes) <= total,
        }
    }

    // The direction in which the two can share where they are adjacent, clockwise if they can in both.
    pub fn share_direction(self, other: Circuit, nodes: u8) -> Direction
        requires { 0 < nodes }
        ensures { result ≡ share_direction nodes self other }
    {
        if self.can_share(other, nodes, Direction::Clockwise) {
            Direction::Clockwise
        } else {
            Direction::Counterclockwise
        }
    }
}
