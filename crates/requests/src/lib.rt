// One line of a script, parsed into a request.

#![tactic(auto)]

ghost use Rattle.std.specs.Prelude.{◌≡◌, ◌≤◌, length, drop};
ghost use Rattle.std.specs.Option.{unwrap_or};
ghost use Rattle.words.specs.Split.{other_words};
ghost use Rattle.words.specs.Parse.{at_end};
ghost use Rattle.requests.specs.Line.{longest_line, plain_line, bad, parse_ring, parse_open, parse_close, parse_line};

use lightpath::Circuit;
use words::{MOST_U8, MOST_U16, MOST_U32};

// The longest line, in bytes without its line end.
pub const LONGEST_LINE: usize = 256;

// The most ports that a line has room for: each takes a space and a digit.
pub const PORT_ROOM: usize = LONGEST_LINE / 2;

// What a line asks for. A ring counts its ports, which stand beside it in the line.
#[derive(Clone, Copy)]
pub enum Request {
    Ring { nodes: u8, count: usize },
    Open { circuit: Circuit },
    Close { number: u32 },
    Bad,
}

// A parsed line: the request, and a ring's ports with zeros after them.
#[derive(Clone, Copy)]
pub struct Line {
    pub request: Request,
    pub ports: [u8; PORT_ROOM],
}

// A line that asks for no ring.
fn plain(request: Request) -> Line
    ensures { result ≡ plain_line request }
{
    Line {
        request,
        ports: [0; PORT_ROOM],
    }
}

// The request, where the word that ends at the position is the last.
fn at_end(line: &[u8], at: usize, request: Request) -> Option<Line>
    ensures { unwrap_or result bad ≡ at_end bad (other_words (drop at line.now)) (plain_line request) }
{
    if at < line.len() {
        return None;
    }
    Some(plain(request))
}

// `ring N k..`, after its first word.
fn parse_ring(line: &[u8], at: usize) -> Option<Line>
    requires { length line.now ≤ longest_line }
    ensures { unwrap_or result bad ≡ parse_ring (other_words (drop at line.now)) }
{
    let (nodes, mut next) = words::read_field(line, at, MOST_U8)?;
    let mut ports = [0; PORT_ROOM];
    let mut count = 0;
    // From where each word ends.
    while next < line.len() {
        let (port, end) = words::read_field(line, next, MOST_U8)?;
        ports[count] = port as u8;
        count += 1;
        next = end;
    }
    let nodes = nodes as u8;
    Some(Line {
        request: Request::Ring { nodes, count },
        ports,
    })
}

// `open number source destination remark account`, after its first word.
fn parse_open(line: &[u8], at: usize) -> Option<Line>
    ensures { unwrap_or result bad ≡ parse_open (other_words (drop at line.now)) }
{
    let (number, at) = words::read_field(line, at, MOST_U32)?;
    let (source, at) = words::read_field(line, at, MOST_U8)?;
    let (destination, at) = words::read_field(line, at, MOST_U8)?;
    let (remark, at) = words::read_field(line, at, MOST_U16)?;
    let (account, at) = words::read_field(line, at, MOST_U32)?;
    let circuit = Circuit {
        number: number as u32,
        source: source as u8,
        destination: destination as u8,
        remark: remark as u16,
        account: account as u32,
    };
    at_end(line, at, Request::Open { circuit })
}

// `close number`, after its first word.
fn parse_close(line: &[u8], at: usize) -> Option<Line>
    ensures { unwrap_or result bad ≡ parse_close (other_words (drop at line.now)) }
{
    let (number, at) = words::read_field(line, at, MOST_U32)?;
    let number = number as u32;
    at_end(line, at, Request::Close { number })
}

// The request that a line is, or that it is none.
fn parse_request(line: &[u8]) -> Option<Line>
    ensures { unwrap_or result bad ≡ parse_line line.now }
{
    if LONGEST_LINE < line.len() {
        return None;
    }
    let end = words::word_end(line, 0);
    let word = &line[..end];
    if word == b"ring".as_slice() {
        return parse_ring(line, end);
    }
    if word == b"open".as_slice() {
        return parse_open(line, end);
    }
    if word == b"close".as_slice() {
        return parse_close(line, end);
    }
    None
}

// The request that a line is, without its line end.
pub fn parse_line(line: &[u8]) -> Line
    ensures { result ≡ parse_line line.now }
{
    parse_request(line).unwrap_or(plain(Request::Bad))
}
