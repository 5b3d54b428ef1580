// One line of the planner's program, run and answered as bytes. The circuits stand in keys and rests that the caller lends, and are changed
// there.

#![tactic(auto)]

mod ask;

ghost use Rattle.std.specs.Prelude.{◌≡◌, ◌+◌, ◌≤◌, length};
ghost use Rattle.commands.specs.Command.{longest_command, command_of};
ghost use Rattle.row_lines.specs.Lines.{from_text};
ghost use Rattle.desk.specs.Desk.{desk_of};
ghost use Rattle.desk.specs.Demand3.{Opens, left_by};
ghost use Rattle.answer_room.specs.Room.{line_room};
ghost use Rattle.planner_lines.specs.Line.{says, if_ready, read_word, run_tidy};
ghost use Rattle.planner_lines.specs.Ran.{CanAnswer, LineAnswered, LineRun};
ghost use Rattle.planner.specs.Asks.{Asks, QuestionAnswered, QuestionRun};

use commands::{Command, MOST_READ, Question};
use desk::Ran;
use grid::GridPlan;
use limits::TIDY_RECORDS;
use ring::RingTable;
use roster::Heading;

// `read FORM` with the form's digits.
fn run_read(
    desk: Option<Heading>,
    keys: &mut [u64],
    rests: &mut [u64],
    word: &[u8],
    out: &mut [u8],
    at: usize,
) -> Ran
    requires { CanAnswer desk keys.old rests.old out.old at × (length word.now ≤ longest_command) }
    ensures { LineAnswered (read_word (desk_of desk keys.old rests.old) word.now) out.old at keys.new rests.new out.new result }
{
    let mut form = [0u8; MOST_READ];
    match saved_forms::read_word(word, &mut form) {
        Some(count) => saved_forms::take_form(desk, keys, rests, &form[..count], out, at),
        None => desk::refuse(desk, out, at),
    }
}

// The answer to a question of the table.
fn answer(
    rt: &HostRuntime,
    table: RingTable,
    question: Question,
    line: &[u8],
    out: &mut [u8],
    at: usize,
) -> usize
    requires { Asks table out.old at × (Command.Ask question ≡ command_of line.now) }
    ensures { QuestionAnswered table question out.old at out.new result }
{
    match question {
        Question::Write => ask::answer_write(table, out, at),
        Question::WriteFile(start) => ask::answer_write_file(rt, table, &line[start..], out, at),
        Question::Load => ask::answer_load(table, out, at),
        Question::Link {
            link,
            wavelength,
            direction,
        } => ask::answer_link(table, link, wavelength, direction, out, at),
        Question::Circuits => ask::answer_circuits(table, out, at),
        Question::Show => ask::answer_show(table, out, at),
        Question::To { node } => ask::answer_to(table, node, out, at),
        Question::Nodes => ask::answer_nodes(table, out, at),
    }
}

// A question of the table that the keys and the rests are of, which is refused where there is none.
fn run_question(
    rt: &HostRuntime,
    desk: Option<Heading>,
    keys: &[u64],
    rests: &[u64],
    question: Question,
    line: &[u8],
    out: &mut [u8],
    at: usize,
) -> Ran
    requires { CanAnswer desk keys.now rests.now out.old at × (Command.Ask question ≡ command_of line.now) }
    ensures { QuestionRun (desk_of desk keys.now rests.now) question out.old at keys.now rests.now out.new result }
{
    let Some(heading) = desk else {
        return desk::refuse(desk, out, at);
    };
    let table = roster::table_in(heading, keys, rests);
    let next = answer(rt, table, question, line, out, at);
    Ran { desk, next }
}

// `tidy`, with 128 records lent, which is refused where there is no table.
fn run_tidy(
    desk: Option<Heading>,
    keys: &mut [u64],
    rests: &mut [u64],
    out: &mut [u8],
    at: usize,
) -> Ran
    requires { CanAnswer desk keys.old rests.old out.old at }
    ensures { LineAnswered (run_tidy (desk_of desk keys.old rests.old)) out.old at keys.new rests.new out.new result }
{
    let Some(heading) = desk else {
        return desk::refuse(desk, out, at);
    };
    let table = roster::table_in(heading, keys, rests);
    let decision = table.decide_tidy_valid(TIDY_RECORDS);
    let next = tidy_lines::put_tidying(out, at, decision.tidied.answer, decision.moves);
    let heading = roster::hold(keys, rests, decision.tidied.table);
    Ran {
        desk: Some(heading),
        next,
    }
}

// `from NODE`, from the node's row of the keys and the rests; it is refused where there is no table.
fn run_from(
    desk: Option<Heading>,
    keys: &[u64],
    rests: &[u64],
    node: u8,
    out: &mut [u8],
    at: usize,
) -> Ran
    requires { CanAnswer desk keys.now rests.now out.old at }
    ensures { LineAnswered (if_ready (desk_of desk keys.now rests.now) (says (desk_of desk keys.now rests.now) (from_text (desk_of desk keys.now rests.now).table.nodes (desk_of desk keys.now rests.now).table.channels node))) out.old at keys.now rests.now out.new result }
{
    let Some(heading) = desk else {
        return desk::refuse(desk, out, at);
    };
    let next = row_lines::put_from(out, at, heading, keys, rests, node);
    Ran { desk, next }
}

// Runs a line without its line end, and writes the answer at a position of the lent bytes. One that is no command is run as the script
// program runs it.
pub fn run_line(
    rt: &HostRuntime,
    desk: Option<Heading>,
    keys: &mut [u64],
    rests: &mut [u64],
    line: &[u8],
    out: &mut [u8],
    at: usize,
) -> Ran
    requires { CanAnswer desk keys.old rests.old out.old at }
    ensures answer { LineRun (desk_of desk keys.old rests.old) line.now out.old at keys.new rests.new out.new result }
    ensures demand3 { Opens (desk_of desk keys.old rests.old) line.now (left_by at keys.new rests.new out.new result) }
{
    match commands::parse_command(line) {
        Command::Read(start) => run_read(desk, keys, rests, &line[start..], out, at),
        Command::ReadFile(start) => {
            saved_forms::run_read_file(rt, desk, keys, rests, &line[start..], out, at)
        }
        Command::Ask(question) => run_question(rt, desk, keys, rests, question, line, out, at),
        Command::Frequency {
            spacing,
            start,
            wavelength,
        } => {
            let next = lasers::answer_frequency(GridPlan { spacing, start }, wavelength, out, at);
            Ran { desk, next }
        }
        Command::Wavelength {
            spacing,
            start,
            frequency,
        } => {
            let next = lasers::answer_wavelength(GridPlan { spacing, start }, frequency, out, at);
            Ran { desk, next }
        }
        Command::Tidy => run_tidy(desk, keys, rests, out, at),
        Command::From { node } => run_from(desk, keys, rests, node, out, at),
        Command::Desk => desk::run_line(desk, keys, rests, line, out, at),
    }
}
