#![tactic(auto)]

// Reads a timetable and ask lines from standard input, and prints what they get. Which lines are printed is fixed in the crate `journey_lines`: here they
// are handed on, one after the other.
ghost use Rattle.journey.specs.Sent.{SentFor};

use builder::Work;
use handing::{Failure, Written};
use kinds::{Minute, Run, Stop, Text};

// The whole output for an input.
fn answer(rt: &HostRuntime, input: &[u8]) -> Result<Written, Failure>
    ensures { SentFor input.now result }
{
    let mut runs = [0u32; Run::ROOM];
    let mut codes = [0u32; Stop::CODES_ROOM];
    let mut tables = [0u8; tables::FILE_ROOM];
    let mut work = [0u16; Work::ROOM];
    let first = journey_lines::start(input, &mut runs, &mut codes, &mut tables, &mut work);
    let mut list = [0u32; Minute::LAST as usize];
    let mut out = [0u8; printed::LINE_ROOM];
    sending::print(
        rt, input, &runs, &codes, &tables, first, &mut list, &mut out,
    )
}

// One byte more is read than the program holds: that tells longer input from input that it holds.
fn main(rt: HostRuntime) {
    let mut input = [0u8; Text::INPUT_MOST + 1];
    let n = handing::read_full(&mut rt.stdin(), &mut input);
    let _ = answer(&rt, &input[..n]);
}
