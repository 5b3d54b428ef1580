// Asks something of a saved ring over and over, for `bench/load`, `bench/tidy` and `bench/from` to time: `ring_bench KIND COUNT < FORM` makes
// the load report of the form's table, which meets the ring rules, COUNT times and writes the last one. KIND is `walk` for the report as it is,
// `afresh` for the loads counted afresh for each link, or `copy` for so many copies of the table and one report. With `tidy` it tidies the
// table COUNT times, and writes the last tidying's rounds, moves and records, and the saved form of the tidied table. With `from` it looks up
// the circuits of each node, 1 to N in turn, COUNT times over in a roster, with `scan` at the table's places, and writes a checksum of what is
// found, four bytes, highest first.

#![tactic(auto)]

mod afresh;
mod lookups;
mod scan;
mod tidyings;

ghost use Rattle.std.specs.Prelude.{◌≡◌, true, ◌*◌, ◌≤◌, length};
ghost use Rattle.std.specs.Counts.{IsPrefixLen};
ghost use Rattle.limits.specs.Limits.{most_nodes};
ghost use Rattle.ring.specs.Table.{meets_rules};

use form::{LONGEST_FORM, NUMBER_WIDTH};
use load::MOST_LOADS;
use ring::RingTable;
use std::env::Env;
use std::io::Read;
use tidyings::MOST_RECORDED;

// The bytes of an argument at most.
const LONGEST_WORD: usize = 16;

// Writes to standard output.
fn put(rt: &HostRuntime, bytes: &[u8]) {
    let _ = rt.write_all(bytes);
}

// Says on standard error what is wrong.
fn say(rt: &HostRuntime, line: &[u8]) {
    let _ = rt.stderr().write_all(line);
}

// The number that a word begins with; from a hundred million on it gets no further digit.
fn number_of(word: &[u8]) -> u32 {
    let mut number: u32 = 0;
    for digit in word {
        if *digit < b'0' || b'9' < *digit || 100_000_000 <= number {
            return number;
        }
        number = 10 * number + (*digit - b'0') as u32;
    }
    number
}

// The report, so many times.
fn walk(table: RingTable, count: u32, out: &mut [u8])
    requires { meets_rules table ≡ true }
{
    for _ in 0..count {
        let _ = load::report_valid(table, out);
    }
}

// The loads counted afresh, so many times.
fn count_afresh(table: RingTable, count: u32, out: &mut [u8])
    requires { (meets_rules table ≡ true) × (2 * most_nodes ≤ length out.old) }
{
    for _ in 0..count {
        afresh::fill(table.nodes, table.channels, out);
    }
}

// A copy of the table, so many times, to one of two places in turn; and the report of what stands at the first.
fn copy(table: RingTable, count: u32, out: &mut [u8])
    requires { meets_rules table ≡ true }
{
    let mut copies = [table; 2];
    for i in 0..count {
        copies[(i % 2) as usize] = table;
    }
    let _ = load::report(copies[0], out);
}

// A load report that is asked for: as it is, counted afresh for each link, or one after copies of the table.
#[derive(Clone, Copy)]
enum Report {
    Walk,
    Afresh,
    Copy,
}

// What is asked for: a load report, if it is one of those that there are, tidyings, or the circuits of each node, in a roster or at the places.
#[derive(Clone, Copy)]
enum Kind {
    Load(Option<Report>),
    Tidy,
    From,
    Scan,
}

// The kind that begins with a letter.
fn kind_of(letter: u8) -> Kind {
    match letter {
        b'w' => Kind::Load(Some(Report::Walk)),
        b'a' => Kind::Load(Some(Report::Afresh)),
        b'c' => Kind::Load(Some(Report::Copy)),
        b't' => Kind::Tidy,
        b'f' => Kind::From,
        b's' => Kind::Scan,
        _ => Kind::Load(None),
    }
}

// The report that is asked for, so many times.
fn repeat(rt: &HostRuntime, report: Option<Report>, table: RingTable, count: u32, out: &mut [u8])
    requires { (meets_rules table ≡ true) × (2 * most_nodes ≤ length out.old) }
{
    match report {
        Some(Report::Walk) => walk(table, count, out),
        Some(Report::Afresh) => count_afresh(table, count, out),
        Some(Report::Copy) => copy(table, count, out),
        None => say(
            rt,
            b"ring_bench: KIND is walk, afresh, copy, tidy, from or scan\n",
        ),
    }
}

// Writes the report that it leaves.
fn run_load(rt: &HostRuntime, report: Option<Report>, table: RingTable, count: u32)
    requires { meets_rules table ≡ true }
{
    let mut out = [0u8; MOST_LOADS];
    repeat(rt, report, table, count, &mut out);
    let length = 2 * table.nodes as usize;
    put(rt, &out[..length]);
}

// Tidies the table so many times, and writes what the last time gave.
fn run_tidy(rt: &HostRuntime, table: RingTable, count: u32)
    requires { meets_rules table ≡ true }
{
    let decision = tidyings::repeat(table, count);
    let mut records = [0u8; MOST_RECORDED];
    let recorded = tidyings::put_moves(&mut records, decision.tidied.answer, decision.moves);
    put(rt, &records[..recorded]);
    let mut form = [0u8; LONGEST_FORM];
    let formed = saved_forms::form_of(decision.tidied.table, &mut form);
    put(rt, &form[..formed]);
}

// Writes a checksum, highest byte first.
fn write_sum(rt: &HostRuntime, sum: u32) {
    let mut out = [0u8; NUMBER_WIDTH];
    byte_numbers::put_number(&mut out, 0, sum, NUMBER_WIDTH);
    put(rt, &out);
}

// What is asked for.
fn run(rt: &HostRuntime, kind: Kind, table: RingTable, count: u32)
    requires { meets_rules table ≡ true }
{
    match kind {
        Kind::Load(report) => run_load(rt, report, table, count),
        Kind::Tidy => run_tidy(rt, table, count),
        Kind::From => write_sum(rt, lookups::by_rows(table, count)),
        Kind::Scan => write_sum(rt, scan::by_places(table, count)),
    }
}

// The table of a form, if it is accepted.
fn run_form(rt: &HostRuntime, kind: Kind, form: &[u8], count: u32) {
    let read = decode::read(form);
    let table = read.table;
    match read.verdict {
        Ok(()) => run(rt, kind, table, count),
        Err(_) => {
            say(rt, b"ring_bench: the form is refused\n");
        }
    }
}

// An argument's bytes at the start of the lent ones, and how many there are, or 0 where there is none or it is longer.
fn argument(rt: &HostRuntime, at: usize, word: &mut [u8; LONGEST_WORD]) -> usize
    ensures { IsPrefixLen result word.new }
{
    rt.arg(at, word).unwrap_or(0)
}

// The bytes of standard input, as far as one read brings them.
fn input(rt: &HostRuntime, bytes: &mut [u8; LONGEST_FORM]) -> usize
    ensures { IsPrefixLen result bytes.new }
{
    rt.stdin().read(bytes).unwrap_or(0)
}

fn main(rt: HostRuntime) {
    let mut kind = [0u8; LONGEST_WORD];
    argument(&rt, 1, &mut kind);
    let mut number = [0u8; LONGEST_WORD];
    let digits = argument(&rt, 2, &mut number);
    let mut form = [0u8; LONGEST_FORM];
    let bytes = input(&rt, &mut form);
    run_form(
        &rt,
        kind_of(kind[0]),
        &form[..bytes],
        number_of(&number[..digits]),
    );
}
