// Document 01's limits, each once. The definitions have the same names in their own spelling, `place_count` for `PLACE_COUNT`: what is
// promised speaks of those, so that a constant with another value is refused where it is used.

#![tactic(auto)]

// The directed wavelength places of a table.
pub const PLACE_COUNT: usize = 128;

// The wavelengths of each direction at most: half of them.
pub const MOST_WAVELENGTHS: u8 = (PLACE_COUNT / 2) as u8;

// The nodes of a ring at least.
pub const LEAST_NODES: u8 = 3;

// And at most.
pub const MOST_NODES: u8 = 64;

// The port fields of a table: one for each node that there can be.
pub const PORT_FIELDS: usize = MOST_NODES as usize;

// The transmitters of a node at most, and its receivers.
pub const MOST_PORTS: u8 = 64;

// The ports of all nodes together at most.
pub const MOST_TOTAL: u16 = 192;

// The circuits of a ring at most: each has a port of its source.
pub const MOST_CIRCUITS: usize = MOST_TOTAL as usize;

// The move records that a host lends at least.
pub const LEAST_RECORDS: usize = 3;

// And for a tidying, by document 02's E5.
pub const TIDY_RECORDS: usize = 128;

// The circuits that the places have room for: two each.
pub const CIRCUIT_ROOM: usize = 2 * PLACE_COUNT;
