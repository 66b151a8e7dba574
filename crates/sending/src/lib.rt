#![tactic(auto)]

// The lines that a program prints, handed on to standard output one after the other. Which lines they are is fixed in the crate `journey_lines`; that they were
// written, or that a write failed, is told by the values of the crate `handing`, which cannot be made otherwise.
ghost use Rattle.std.specs.Prelude.{◌≤◌, length};
ghost use Rattle.printed.specs.Printed.{longest_line};
ghost use Rattle.journey_lines.specs.Steps.{Stands};
ghost use Rattle.sending.specs.Sent.{SentFrom};

use handing::{Failure, Written};
use journey_lines::Stage;

// All lines from the stage `first` on. `Err` tells of a write that failed: nothing is handed on after it.
pub fn print(
    rt: &HostRuntime,
    input: &[u8],
    runs: &[u32],
    codes: &[u32],
    tables: &[u8],
    first: Stage,
    list: &mut [u32],
    out: &mut [u8],
) -> Result<Written, Failure>
    requires longest_line_in_bounds { longest_line ≤ length out.old }
    requires stands { Stands input.now runs.now codes.now tables.now list.old first }
    ensures { SentFrom input.now runs.now codes.now tables.now list.old first result }
{
    let mut stage = first;
    let mut written = Written::none();
    // not a counted loop: it goes on while a line is to be printed
    while let Some(line) = journey_lines::next(input, runs, codes, tables, stage, list, out) {
        written = handing::hand(rt, written, out, line.bytes)?;
        stage = line.after;
    }
    Ok(written)
}
