// What a line asks for beyond the script's three kinds.

#![tactic(auto)]

ghost use Rattle.std.specs.Prelude.{◌≡◌, ◌≤◌, ℕ, ℤ, length, take, drop, MatchOption};
ghost use Rattle.std.specs.Option.{unwrap_or};
ghost use Rattle.words.specs.Split.{other_words};
ghost use Rattle.words.specs.Parse.{by_word, at_end};
ghost use Rattle.commands.specs.declared.Command.{Command};
ghost use Rattle.commands.specs.Command.{last_at, read_command, write_command, link_command, grid_command, node_command, kinds, command_of};
ghost use Rattle.commands.specs.Parsed.{LastWord, grid_asked, node_asked};

use words::{MOST_U8, MOST_U32};

// The most bytes of a form that are read, from the digits of a word or from a file. A longer file is read to that.
pub const MOST_READ: usize = 4096;

// The most bytes of a line: it has room for the digits of as many, but for its first word.
pub const LONGEST_COMMAND: usize = 2 * MOST_READ;

// What is asked of the table, which stays as it is.
#[derive(Clone, Copy)]
pub enum Question {
    Write,
    WriteFile(usize),
    Load,
    Link {
        link: u64,
        wavelength: u64,
        direction: u64,
    },
    Circuits,
    Show,
    To {
        node: u8,
    },
    Nodes,
}

// What a line asks for: one of these, or what the order desk makes of it. A form or a path begins at a position of the line.
#[derive(Clone, Copy)]
pub enum Command {
    Read(usize),
    ReadFile(usize),
    Ask(Question),
    Frequency {
        spacing: u32,
        start: i32,
        wavelength: u32,
    },
    Wavelength {
        spacing: u32,
        start: i32,
        frequency: u32,
    },
    Tidy,
    From {
        node: u8,
    },
    Desk,
}

// The command, where the word that ends at the position is the last.
fn at_end(line: &[u8], at: usize, command: Command) -> Option<Command>
    ensures { unwrap_or result Command.Desk ≡ at_end Command.Desk (other_words (drop at line.now)) command }
{
    if at < line.len() {
        return None;
    }
    Some(command)
}

// Where the word after the one that ends at a position begins, if it is the last and has a byte.
fn last_word(line: &[u8], at: usize) -> Option<usize>
    ensures { MatchOption result (last_at line.now (other_words (drop at line.now)) ≡ 0) (LastWord line.now (other_words (drop at line.now))) }
{
    let (word, end) = words::next_word(line, at)?;
    if word.is_empty() || end < line.len() {
        return None;
    }
    Some(end - word.len())
}

// `read FORM`, after its first word.
fn parse_read(line: &[u8], at: usize) -> Option<Command>
    ensures { unwrap_or result Command.Desk ≡ read_command line.now (other_words (drop at line.now)) }
{
    let start = last_word(line, at)?;
    if line[start] == b'@' {
        return Some(Command::ReadFile(start + 1));
    }
    Some(Command::Read(start))
}

// `write` or `write @PATH`, after its first word.
fn parse_write(line: &[u8], at: usize) -> Option<Command>
    ensures { unwrap_or result Command.Desk ≡ write_command line.now (other_words (drop at line.now)) }
{
    if line.len() <= at {
        return Some(Command::Ask(Question::Write));
    }
    let start = last_word(line, at)?;
    if line[start] == b'@' {
        return Some(Command::Ask(Question::WriteFile(start + 1)));
    }
    None
}

// `link LINK WAVELENGTH DIRECTION`, after its first word.
fn parse_link(line: &[u8], at: usize) -> Option<Command>
    ensures { unwrap_or result Command.Desk ≡ link_command (other_words (drop at line.now)) }
{
    let (link, at) = words::read_field(line, at, u64::MAX)?;
    let (wavelength, at) = words::read_field(line, at, u64::MAX)?;
    let (direction, at) = words::read_field(line, at, u64::MAX)?;
    let question = Question::Link {
        link,
        wavelength,
        direction,
    };
    at_end(line, at, Command::Ask(question))
}

// The numbers of `frequency SPACING START WAVELENGTH`, or of `wavelength SPACING START FREQUENCY`, after the first word.
fn parse_grid(line: &[u8], at: usize) -> Option<(u32, i32, u32)>
    ensures { (asked : ℕ → ℤ → ℕ → Command) → grid_asked asked result ≡ grid_command asked (other_words (drop at line.now)) }
{
    let (spacing, at) = words::read_field(line, at, MOST_U32)?;
    let (start, at) = words::read_signed_field(line, at)?;
    let (last, at) = words::read_field(line, at, MOST_U32)?;
    if at < line.len() {
        return None;
    }
    Some((spacing as u32, start, last as u32))
}

// The node of `from NODE`, or of `to NODE`, after the first word.
fn parse_node(line: &[u8], at: usize) -> Option<u8>
    ensures { (asked : ℕ → Command) → node_asked asked result ≡ node_command asked (other_words (drop at line.now)) }
{
    let (node, at) = words::read_field(line, at, MOST_U8)?;
    if at < line.len() {
        return None;
    }
    Some(node as u8)
}

// What the word that ends at a position asks for, with the words after it.
fn parse_kind(line: &[u8], at: usize) -> Option<Command>
    requires { at ≤ length line.now }
    ensures { unwrap_or result Command.Desk ≡ by_word Command.Desk (take at line.now) (kinds line.now (other_words (drop at line.now))) }
{
    let word = &line[..at];
    if word == b"read".as_slice() {
        return parse_read(line, at);
    }
    if word == b"write".as_slice() {
        return parse_write(line, at);
    }
    if word == b"load".as_slice() {
        return at_end(line, at, Command::Ask(Question::Load));
    }
    if word == b"link".as_slice() {
        return parse_link(line, at);
    }
    if word == b"circuits".as_slice() {
        return at_end(line, at, Command::Ask(Question::Circuits));
    }
    if word == b"show".as_slice() {
        return at_end(line, at, Command::Ask(Question::Show));
    }
    if word == b"frequency".as_slice() {
        let (spacing, start, wavelength) = parse_grid(line, at)?;
        return Some(Command::Frequency {
            spacing,
            start,
            wavelength,
        });
    }
    if word == b"wavelength".as_slice() {
        let (spacing, start, frequency) = parse_grid(line, at)?;
        return Some(Command::Wavelength {
            spacing,
            start,
            frequency,
        });
    }
    if word == b"tidy".as_slice() {
        return at_end(line, at, Command::Tidy);
    }
    if word == b"from".as_slice() {
        let node = parse_node(line, at)?;
        return Some(Command::From { node });
    }
    if word == b"to".as_slice() {
        let node = parse_node(line, at)?;
        return Some(Command::Ask(Question::To { node }));
    }
    if word == b"nodes".as_slice() {
        return at_end(line, at, Command::Ask(Question::Nodes));
    }
    None
}

// What a line asks for, without its line end.
pub fn parse_command(line: &[u8]) -> Command
    ensures { result ≡ command_of line.now }
{
    if LONGEST_COMMAND < line.len() {
        return Command::Desk;
    }
    parse_kind(line, words::word_end(line, 0)).unwrap_or(Command::Desk)
}
