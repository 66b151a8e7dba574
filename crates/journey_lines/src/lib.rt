// What the program "journey" prints for its input, line by line. `start` reads the timetable and builds the tables; each `next` writes one line into
// a buffer and says what is to be printed after it. The program hands the lines on and decides nothing.
#![tactic(auto)]

ghost use Rattle.std.specs.Prelude.{◌≡◌, ◌+◌, ◌≤◌, ◌<◌, length, take, get_or};
ghost use Rattle.loops.specs.Zero.{zeros};
ghost use Rattle.timetable.specs.Numbers.{run_at};
ghost use Rattle.answers.specs.Answers.{rides_in, ride_line_of, Ridden};
ghost use Rattle.tables.specs.File.{AreBytes};
ghost use Rattle.reader.specs.Text.{answer_of, runs_of, codes_of};
ghost use Rattle.printed.specs.Printed.{longest_line};
ghost use Rattle.askline.specs.declared.Piece.TheVariants as piece;
ghost use Rattle.askline.specs.Input.{piece_at};
ghost use Rattle.journey_lines.specs.Output.{read_input, StartOf, held_of};
ghost use Rattle.journey_lines.specs.Steps.{Writes, TurnStep, StepOf, most_held, Ready, Stands};

use askline::Piece;
use kinds::{Reason, Refusal, Text};
use reader::Counts;
use rides::Listed;
use timetable::Given;
use words::Stretch;

// How much of each room is in use: stops and runs, bytes of the text and of the tables.
#[derive(Clone, Copy)]
pub struct Sizes {
    pub given: Given,
    pub text: usize,
    pub tables: usize,
}

// Whose turn it is: that of ride `ride` of the `rides` that are listed, and after them that of the line at `at`.
#[derive(Clone, Copy)]
pub struct Turn {
    pub at: usize,
    pub ride: u32,
    pub rides: u32,
}

impl Turn {
    // The first of so many rides, and then the line at `at`.
    fn new(at: usize, rides: u32) -> Turn
        ensures { result ≡ record { at = at; ride = 0; rides = rides } }
    {
        Turn { at, ride: 0, rides }
    }
}

// What is still to be printed: the refusal of the timetable or of the build, what the asks get, or nothing. (No `Result`: a refusal is a line to print like
// others. No closure for the next step: contracts speak of stages, and they are kept between two lines.)
#[derive(Clone, Copy)]
pub enum Stage {
    Refused(Refusal),
    Asks(Sizes, Turn),
    Over,
}

// A line of so many bytes, and what is to be printed after it.
#[derive(Clone, Copy)]
pub struct Printed {
    pub bytes: usize,
    pub after: Stage,
}

// The timetable of the input. More than the program holds is refused, whatever it is.
fn read_input(input: &[u8], runs: &mut [u32], codes: &mut [u32]) -> Result<Counts, Refusal>
    ensures value { result ≡ answer_of (read_input input.now (length runs.old) (length codes.old)) }
    ensures runs_after { runs.new ≡ runs_of (read_input input.now (length runs.old) (length codes.old))
        (length runs.old) }
    ensures codes_after { codes.new ≡ codes_of (read_input input.now (length runs.old) (length codes.old))
        (length codes.old) }
{
    if Text::INPUT_MOST < input.len() {
        loops::zero(runs);
        loops::zero(codes);
        return Err(Refusal::new(Reason::OverLimit, 0));
    }
    let end = askline::timetable_end(input);
    reader::read(&input[..end], runs, codes)
}

// The start: the timetable is read, and the tables are built, also where no ask follows.
pub fn start(
    input: &[u8],
    runs: &mut [u32],
    codes: &mut [u32],
    tables: &mut [u8],
    work: &mut [u16],
) -> Stage
    ensures start_of { StartOf input.now (length runs.old) (length codes.old) (length work.old)
        (length tables.old) tables.new result }
    ensures runs_after { runs.new ≡ runs_of (read_input input.now (length runs.old) (length codes.old))
        (length runs.old) }
    ensures codes_after { codes.new ≡ codes_of (read_input input.now (length runs.old) (length codes.old))
        (length codes.old) }
    ensures work_after { work.new ≡ zeros work.old }
    ensures are_bytes { AreBytes tables.new }
{
    let counts = match read_input(input, runs, codes) {
        Ok(counts) => counts,
        Err(r) => {
            loops::zero(tables);
            loops::zero(work);
            return Stage::Refused(r);
        }
    };
    let given = Given {
        stops: counts.stops,
        runs: counts.runs,
    };
    match builder::build(given, runs, tables, work) {
        Err(r) => Stage::Refused(r),
        Ok(made) => {
            let text = askline::timetable_end(input);
            Stage::Asks(
                Sizes {
                    given,
                    text,
                    tables: made.length as usize,
                },
                Turn::new(text, 0),
            )
        }
    }
}

// The line of the next listed ride; there always is one.
fn ride_step(
    input: &[u8],
    runs: &[u32],
    codes: &[u32],
    z: Sizes,
    p: Turn,
    list: &[u32],
    out: &mut [u8],
) -> Option<Printed>
    requires longest_line_in_bounds { longest_line ≤ length out.old }
    requires ride_lt_rides { p.ride < p.rides }
    requires text_in_bounds { z.text ≤ length input.now }
    requires ridden { Ridden (take z.text input.now) codes.now runs.now list.now p.ride }
    ensures { Writes out.old
        (ride_line_of (take z.text input.now) codes.now (run_at runs.now (get_or list.now p.ride 0)))
        (Stage.Asks z (record { at = p.at; ride = p.ride + 1; rides = p.rides })) out.new result }
{
    let text = z.text;
    let bytes = answers::ride(out, &input[..text], codes, runs, list, p.ride as usize);
    let turn = Turn {
        at: p.at,
        ride: p.ride + 1,
        rides: p.rides,
    };
    Some(Printed {
        bytes,
        after: Stage::Asks(z, turn),
    })
}

// After the first line of an answer the rides that it lists have their turn, and then the line after the ask's LF, which stands at `end`. An ask that
// is refused lists none, and ends nothing.
fn turn_after(answer: Result<Listed, Refusal>, end: usize) -> Turn
    requires { end < most_held }
    ensures { result ≡ record { at = end + 1; ride = 0; rides = rides_in answer } }
{
    match answer {
        Ok(j) => Turn::new(end + 1, j.rides),
        Err(_) => Turn::new(end + 1, 0),
    }
}

// The first line of what the ask line from `p.at` up to `end` gets.
fn line_step(
    input: &[u8],
    runs: &[u32],
    codes: &[u32],
    tables: &[u8],
    z: Sizes,
    p: Turn,
    end: usize,
    list: &mut [u32],
    out: &mut [u8],
) -> Option<Printed>
    requires longest_line_in_bounds { longest_line ≤ length out.old }
    requires ready { Ready input.now runs.now codes.now tables.now list.old z p }
    requires rides_le_ride { p.rides ≤ p.ride }
    requires at_value { piece_at input.now p.at ≡ piece.Line «end» }
    ensures { TurnStep (held_of input.now runs.now codes.now tables.now z) input.now z p
        list.old out.old list.new out.new result }
{
    let text = z.text;
    let length = z.tables;
    let mut work = [0u16; both::ROOM];
    let line = Stretch {
        text: input,
        from: p.at,
        to: end,
    };
    let answer = answers::answer(
        &input[..text],
        codes,
        z.given,
        runs,
        &tables[..length],
        line,
        list,
        &mut work,
    );
    let bytes = answers::head(out, answer);
    let turn = turn_after(answer, end);
    Some(Printed {
        bytes,
        after: Stage::Asks(z, turn),
    })
}

// The next listed ride, or else the next line; `None` where nothing more is to be printed.
fn turn_step(
    input: &[u8],
    runs: &[u32],
    codes: &[u32],
    tables: &[u8],
    z: Sizes,
    p: Turn,
    list: &mut [u32],
    out: &mut [u8],
) -> Option<Printed>
    requires longest_line_in_bounds { longest_line ≤ length out.old }
    requires ready { Ready input.now runs.now codes.now tables.now list.old z p }
    ensures { TurnStep (held_of input.now runs.now codes.now tables.now z) input.now z p
        list.old out.old list.new out.new result }
{
    if p.ride < p.rides {
        return ride_step(input, runs, codes, z, p, list, out);
    }
    match askline::piece_at(input, p.at) {
        Piece::Line(end) => line_step(input, runs, codes, tables, z, p, end, list, out),
        Piece::Unfinished => {
            let bytes = printed::no_line(out, Reason::LineShape.number());
            Some(Printed {
                bytes,
                after: Stage::Over,
            })
        }
        Piece::Done => None,
    }
}

// The next line of the output; `None` where there is none. Nothing follows a refused timetable or build.
pub fn next(
    input: &[u8],
    runs: &[u32],
    codes: &[u32],
    tables: &[u8],
    stage: Stage,
    list: &mut [u32],
    out: &mut [u8],
) -> Option<Printed>
    requires longest_line_in_bounds { longest_line ≤ length out.old }
    requires stands { Stands input.now runs.now codes.now tables.now list.old stage }
    ensures { StepOf input.now runs.now codes.now tables.now stage
        list.old out.old list.new out.new result }
{
    match stage {
        Stage::Refused(r) => {
            let bytes = printed::no_place_line(out, r.reason.number(), r.place);
            Some(Printed {
                bytes,
                after: Stage::Over,
            })
        }
        Stage::Asks(z, p) => turn_step(input, runs, codes, tables, z, p, list, out),
        Stage::Over => None,
    }
}
