// A host of the ring controller: it makes rings, opens circuits and tidies with a list of move records that it lends, closes some, saves a
// ring and asks for its loads with lent bytes, and prints what it got.
// A demonstration: `main` promises only that it is safe, and what it prints is held to the file `stdout` by the gate.

#![tactic(auto)]

ghost use Rattle.std.specs.Prelude.{◌≡◌, ◌++◌, ◌≤◌, take, drop};
ghost use Rattle.ring.specs.Opening.{open_of, lent_after};
ghost use Rattle.ring.specs.Tidying.{tidy_of, tidy_lent_after};

use lightpath::{Circuit, Place};
use moves::Move;
use refusals::{Refusal, Verdict};
use ring::{Opened, RingTable, Taken, Tidied, TidyCounts};

// The list to lend has two records more than a tidying asks for.
const LENT: usize = 130;

// The list by value.
type Records = [Move; LENT];

// A record as it stands before it is lent.
const MARK: Move = Move {
    number: 99,
    from: Place(9),
    to: Place(9),
};

// A word and a number.
fn print(rt: &HostRuntime, word: &[u8], number: u64) {
    let _ = rt.write_all(word);
    let _ = rt.print(number);
}

// The line's end.
fn end_line(rt: &HostRuntime) {
    let _ = rt.write_all(b"\n");
}

// The number of a refusal.
fn print_refusal(rt: &HostRuntime, refusal: Refusal) {
    print(rt, b" refused ", u64::from(u8::from(refusal)));
}

// A record of the list that was lent.
fn print_move(rt: &HostRuntime, record: Move) {
    print(rt, b"move ", u64::from(record.number));
    print(rt, b" from ", u64::from(record.from.0));
    print(rt, b" to ", u64::from(record.to.0));
    end_line(rt);
}

// Whether a record is as it stood before it was lent.
fn marked(record: &Move) -> bool {
    *record == MARK
}

// The first records of the list, as many as there are moves. It gives how many of the others are as they stood.
fn print_moves(rt: &HostRuntime, moves: u8, list: Records) -> usize {
    let (moved, others) = list.split_at(LENT.min(usize::from(moves)));
    for record in moved {
        print_move(rt, *record);
    }
    others.iter().filter(|record| marked(record)).count()
}

// What came of an opening.
fn print_opening(rt: &HostRuntime, circuit: Circuit, opened: Opened, list: Records) {
    print(rt, b"open ", u64::from(circuit.number));
    match opened.answer {
        Ok(
            Taken {
                place,
                moves,
                looks,
            },
        ) => {
            print(rt, b" place ", u64::from(place.0));
            print(rt, b" moves ", u64::from(moves));
            print(rt, b" looks ", u64::from(looks));
            end_line(rt);
            print_moves(rt, moves, list);
        }
        Err(refusal) => {
            print_refusal(rt, refusal);
            end_line(rt);
        }
    }
}

// The end of a tidying's line, its moves, and how many of the other records are as they stood.
fn print_list(rt: &HostRuntime, moves: u8, list: Records) {
    end_line(rt);
    print(rt, b"kept ", print_moves(rt, moves, list) as u64);
    end_line(rt);
}

// What came of a tidying.
fn print_tidying(rt: &HostRuntime, tidied: Tidied, list: Records) {
    match tidied.answer {
        Ok(TidyCounts { rounds, moves }) => {
            print(rt, b" rounds ", u64::from(rounds));
            print(rt, b" moves ", u64::from(moves));
            print_list(rt, moves, list);
        }
        Err(refusal) => {
            print_refusal(rt, refusal);
            print_list(rt, 0, list);
        }
    }
}

// A circuit is opened with the list lent. It gives what came of it, and the list as it left it.
fn open_lent(table: RingTable, circuit: Circuit, mut list: Records) -> (Opened, Records)
    ensures { result ≡ (open_of table circuit list, lent_after table circuit list) }
{
    let opened = table.open(circuit, &mut list);
    (opened, list)
}

// A circuit is opened with all the records, and the table after it is handed on.
fn open_circuit(rt: &HostRuntime, table: RingTable, circuit: Circuit) -> RingTable {
    let (opened, list) = open_lent(table, circuit, [MARK; LENT]);
    print_opening(rt, circuit, opened, list);
    opened.table
}

// A ring is tidied with so many records of the list lent. It gives what came of it, and the list as it left it.
fn tidy_lent(table: RingTable, room: usize, mut list: Records) -> (Tidied, Records)
    requires { room ≤ 130 }
    ensures { result ≡ (tidy_of table (take room list), tidy_lent_after table (take room list) ++ drop room list) }
{
    let tidied = table.tidy(&mut list[..room]);
    (tidied, list)
}

// A ring is tidied with so many records, and the table after it is handed on.
fn tidy_ring(rt: &HostRuntime, table: RingTable, room: usize) -> RingTable
    requires { room ≤ 130 }
{
    let (tidied, list) = tidy_lent(table, room, [MARK; LENT]);
    print(rt, b"tidy with ", room as u64);
    print_tidying(rt, tidied, list);
    tidied.table
}

// The end of a line, with the refusal if there is one.
fn print_verdict(rt: &HostRuntime, verdict: Verdict) {
    match verdict {
        Ok(()) => {}
        Err(refusal) => print_refusal(rt, refusal),
    }
    end_line(rt);
}

// A circuit is closed, and the table after it is handed on.
fn close_circuit(rt: &HostRuntime, table: RingTable, number: u32) -> RingTable {
    let closed = table.close(number);
    let verdict = closed.verdict;
    print(rt, b"close ", u64::from(number));
    print_verdict(rt, verdict);
    closed.table
}

// A ring is made.
fn make_ring(rt: &HostRuntime, nodes: u8, ports: &[u8]) -> RingTable {
    let made = RingTable::make(nodes, ports);
    let table = made.table;
    let verdict = made.verdict;
    print(rt, b"ring ", u64::from(table.nodes));
    print(rt, b" wavelengths ", u64::from(table.wavelengths()));
    print_verdict(rt, verdict);
    table
}

// A circuit without a remark and without an account.
fn circuit(number: u32, source: u8, destination: u8) -> Circuit
    ensures { result ≡ record { number = number; source = source; destination = destination; remark = 0; account = 0 } }
{
    Circuit {
        number,
        source,
        destination,
        remark: 0,
        account: 0,
    }
}

// Document 01's script: five nodes with a transmitter and a receiver at each. 11 takes its shorter way round, counterclockwise; 14 is the
// return of 12 and joins it.
fn join_return(rt: &HostRuntime) {
    let table = make_ring(rt, 5, b"\x01\x01\x01\x01\x01");
    let table = open_circuit(rt, table, circuit(11, 1, 5));
    let table = open_circuit(rt, table, circuit(12, 2, 3));
    let table = open_circuit(rt, table, circuit(13, 4, 1));
    let table = open_circuit(rt, table, circuit(14, 3, 2));
    let table = open_circuit(rt, table, circuit(15, 5, 4));
    let table = open_circuit(rt, table, circuit(16, 1, 2));
    let table = close_circuit(rt, table, 13);
    open_circuit(rt, table, circuit(16, 4, 1));
}

// On a ring of six nodes, an opening that moves one.
fn move_one(rt: &HostRuntime) {
    let table = make_ring(rt, 6, b"\x01\x01\x01\x01\x01\x01");
    let table = open_circuit(rt, table, circuit(21, 1, 4));
    let table = open_circuit(rt, table, circuit(22, 3, 6));
    let table = open_circuit(rt, table, circuit(23, 6, 5));
    let table = open_circuit(rt, table, circuit(24, 2, 1));
    open_circuit(rt, table, circuit(25, 4, 3));
}

// On the same ring, an opening that moves two.
fn move_two(rt: &HostRuntime) -> RingTable {
    let table = make_ring(rt, 6, b"\x01\x01\x01\x01\x01\x01");
    let table = open_circuit(rt, table, circuit(21, 1, 2));
    let table = open_circuit(rt, table, circuit(22, 2, 3));
    let table = open_circuit(rt, table, circuit(23, 3, 6));
    let table = open_circuit(rt, table, circuit(24, 5, 1));
    let table = open_circuit(rt, table, circuit(25, 6, 4));
    open_circuit(rt, table, circuit(26, 4, 5))
}

// And one that moves three.
fn move_three(rt: &HostRuntime) {
    let table = make_ring(rt, 6, b"\x01\x01\x01\x01\x01\x01");
    let table = open_circuit(rt, table, circuit(21, 1, 2));
    let table = open_circuit(rt, table, circuit(22, 3, 6));
    let table = open_circuit(rt, table, circuit(23, 4, 5));
    let table = open_circuit(rt, table, circuit(24, 5, 3));
    open_circuit(rt, table, circuit(25, 6, 4));
}

// Circuits that stand apart once 21 is closed: 22 and 23, both clockwise, and 24 and 25, which can share clockwise and both stand
// counterclockwise, where they went since no clockwise place was unlit.
fn stand_apart(rt: &HostRuntime) -> RingTable {
    let table = make_ring(rt, 6, b"\x01\x01\x01\x01\x01\x01");
    let table = open_circuit(rt, table, circuit(21, 5, 6));
    let table = open_circuit(rt, table, circuit(22, 6, 1));
    let table = open_circuit(rt, table, circuit(23, 1, 2));
    let table = open_circuit(rt, table, circuit(24, 3, 4));
    let table = open_circuit(rt, table, circuit(25, 4, 5));
    close_circuit(rt, table, 21)
}

// The ring is saved in so many of 100 lent bytes.
fn save_ring(rt: &HostRuntime, table: RingTable, room: usize) {
    let mut lent = [0u8; 100];
    if lent.len() < room {
        return;
    }
    print(rt, b"write to ", room as u64);
    match encode::write(table, &mut lent[..room]) {
        Ok(length) => print(rt, b" length ", length as u64),
        Err(refusal) => print_refusal(rt, refusal),
    }
    end_line(rt);
}

// The loads of link 1, as they stand in so many lent bytes; each was 99 before.
fn report_loads(rt: &HostRuntime, table: RingTable, room: usize) {
    let mut lent = [99u8; 12];
    if lent.len() < room {
        return;
    }
    let verdict = load::report(table, &mut lent[..room]);
    print(rt, b"load ", u64::from(lent[0]));
    print(rt, b" ", u64::from(lent[1]));
    print_verdict(rt, verdict);
}

// What is lent suffices, or is too short; and a table that breaks a ring rule.
fn main(rt: HostRuntime) {
    join_return(&rt);
    move_one(&rt);
    let table = move_two(&rt);
    move_three(&rt);
    save_ring(&rt, table, 100);
    save_ring(&rt, table, 10);
    save_ring(&rt, RingTable::blank(), 100);
    report_loads(&rt, table, 12);
    report_loads(&rt, table, 11);
    report_loads(&rt, RingTable::blank(), 12);
    let table = stand_apart(&rt);
    report_loads(&rt, table, 12);
    tidy_ring(&rt, table, 127);
    let table = tidy_ring(&rt, table, 128);
    report_loads(&rt, table, 12);
    tidy_ring(&rt, table, 130);
    tidy_ring(&rt, RingTable::blank(), 127);
}
