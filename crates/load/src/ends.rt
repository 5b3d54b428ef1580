// The lightpaths of a direction counted at their ends: how many start at each node, how many stop there, and how many go over link N.

ghost use Rattle.std.specs.Prelude.{◌≡◌, true, ◌<◌, ltb, replicate};
ghost use Rattle.basis.specs.Choice.{bit};
ghost use Rattle.basis.specs.Count.{All};
ghost use Rattle.limits.specs.Limits.{most_wavelengths};
ghost use Rattle.lightpath.specs.Place.{place_of};
ghost use Rattle.lightpath.specs.Ends.{start_of, stop_of};
ghost use Rattle.slots.specs.Slot.{held};
ghost use Rattle.channels.specs.Channels.{at};
ghost use Rattle.ring.specs.Table.{meets_rules};
ghost use Rattle.load.specs.Walk.{node_room, more, counted, over_last, Inside, RoomFor};

use lightpath::{Circuit, Direction, Wavelength};
use limits::PORT_FIELDS;
use ring::RingTable;
use slots::Slot;

// A count for each node; nodes are numbered from 1.
const NODE_ROOM: usize = PORT_FIELDS + 1;

// How many lightpaths start at each node of a walk clockwise round the ring, how many stop there, and how many go over link N, which is set
// when all are counted.
#[derive(Clone, Copy)]
pub struct EndCounts {
    pub starts: [u8; NODE_ROOM],
    pub stops: [u8; NODE_ROOM],
    pub last: u8,
}

impl EndCounts {
    // None counted.
    pub fn none() -> EndCounts
        ensures starts { result.starts ≡ replicate node_room 0 }
        ensures stops { result.stops ≡ replicate node_room 0 }
        ensures last { result.last ≡ 0 }
    {
        EndCounts {
            starts: [0; NODE_ROOM],
            stops: [0; NODE_ROOM],
            last: 0,
        }
    }

    // Counts a lightpath by the nodes at which it starts and stops, and gives 1 if it goes over link N: if it stops at the lower one.
    fn count(&mut self, start: u8, stop: u8) -> u8
        requires inside { (start < node_room) × (stop < node_room) }
        requires room { RoomFor 1 self.old.starts × RoomFor 1 self.old.stops }
        ensures starts { self.new.starts ≡ more start self.old.starts }
        ensures stops { self.new.stops ≡ more stop self.old.stops }
        ensures last { result ≡ bit (ltb stop start) }
    {
        self.starts[usize::from(start)] += 1;
        self.stops[usize::from(stop)] += 1;
        u8::from(stop < start)
    }

    // Counts the lightpath of a circuit, and gives 1 if it goes over link N.
    fn count_circuit(&mut self, circuit: Circuit, direction: Direction) -> u8
        requires inside { Inside circuit }
        requires room { RoomFor 1 self.old.starts × RoomFor 1 self.old.stops }
        ensures starts { self.new.starts ≡ more (start_of direction circuit) self.old.starts }
        ensures stops { self.new.stops ≡ more (stop_of direction circuit) self.old.stops }
        ensures last { result ≡ bit (ltb (stop_of direction circuit) (start_of direction circuit)) }
    {
        match direction {
            Direction::Clockwise => self.count(circuit.source, circuit.destination),
            Direction::Counterclockwise => self.count(circuit.destination, circuit.source),
        }
    }

    // Counts the lightpaths of a place, and gives how many of them go over link N.
    fn count_place(&mut self, slot: Slot, direction: Direction) -> u8
        requires inside { All Inside (held slot) }
        requires room { RoomFor 2 self.old.starts × RoomFor 2 self.old.stops }
        ensures starts { self.new.starts ≡ counted (start_of direction) (held slot) self.old.starts }
        ensures stops { self.new.stops ≡ counted (stop_of direction) (held slot) self.old.stops }
        ensures last { result ≡ over_last direction (held slot) }
    {
        match slot {
            Slot::Unlit => 0,
            Slot::Alone(a) => self.count_circuit(a, direction),
            Slot::Shared(a, b) => {
                self.count_circuit(a, direction) + self.count_circuit(b, direction)
            }
        }
    }

    // Counts the lightpaths of a direction on a wavelength of a table that is known to meet the ring rules, and gives how many of them go over
    // link N. They are added up by the caller: a sum in a field would wait for itself at each lightpath.
    pub fn count_wavelength(
        &mut self,
        table: &RingTable,
        wavelength: Wavelength,
        direction: Direction,
    ) -> u8
        requires valid { meets_rules table.now ≡ true }
        requires wavelength { wavelength.0 < most_wavelengths }
        requires room { RoomFor 2 self.old.starts × RoomFor 2 self.old.stops }
        ensures starts { self.new.starts ≡ counted (start_of direction) (held (at table.now.channels (place_of wavelength.0 direction))) self.old.starts }
        ensures stops { self.new.stops ≡ counted (stop_of direction) (held (at table.now.channels (place_of wavelength.0 direction))) self.old.stops }
        ensures last { result ≡ over_last direction (held (at table.now.channels (place_of wavelength.0 direction))) }
    {
        let place = wavelength.place(direction);
        self.count_place(table.channels[usize::from(place.0)].slot, direction)
    }
}
