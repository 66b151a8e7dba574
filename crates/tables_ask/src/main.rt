#![tactic(auto)]

// Answers ask lines from standard input by a tables file, once the check has accepted it against the timetable; else it says why not. What is said is
// fixed in the crate `desk`, what the asks get in the crate `journey_lines`.
ghost use Rattle.std.specs.Prelude.{◌≡◌, ◌+◌, ◌≤◌, length, take, replicate};
ghost use Rattle.kinds.specs.Limits.{most_text, most_input, last_minute};
ghost use Rattle.files.specs.Files.{ReadWithin};
ghost use Rattle.journey_lines.specs.Steps.{Ready};
ghost use Rattle.sending.specs.Sent.{SentFrom};
ghost use Rattle.tables_ask.specs.Held.{held_room, AcceptedFor, first_turn};

use handing::{Failure, Written};
use journey_lines::{Sizes, Stage, Turn};
use kinds::{Minute, Reason, Refusal, Run, Stop, Text};
use timetable::Given;

// Room for the text and, behind it, the asks; of each one byte more than there may be, which tells what is too long.
fn held_room() -> [u8; Text::MOST + 1 + (Text::INPUT_MOST + 1)]
    ensures { held_room ≡ length result }
{
    [0; Text::MOST + 1 + (Text::INPUT_MOST + 1)]
}

// The text; `None` where it cannot be used, and it was told why.
fn read_text(rt: &HostRuntime, held: &mut [u8]) -> Option<usize>
    requires { held_room ≤ length held.old }
    ensures { ReadWithin (most_text + 1) result }
{
    let end = Text::MOST + 1;
    files::read_named(rt, 1, Text::MOST as u32, &mut held[..end])
}

// The asks, read behind the text. The text stays.
fn read_asks(rt: &HostRuntime, held: &mut [u8], n: usize) -> usize
    requires { n + (most_input + 1) ≤ length held.old }
    ensures upper_bound { result ≤ most_input + 1 }
    ensures held_unchanged { take n held.new ≡ take n held.old }
{
    let end = n + (Text::INPUT_MOST + 1);
    handing::read_full(&mut rt.stdin(), &mut held[n..end])
}

// What the asks get, from the first line on; only accepted tables answer.
fn answer(
    rt: &HostRuntime,
    input: &[u8],
    runs: &[u32],
    codes: &[u32],
    tables: &[u8],
    sizes: Sizes,
) -> Result<Written, Failure>
    requires ready { Ready input.now runs.now codes.now tables.now (replicate last_minute 0) sizes (first_turn sizes.text) }
    requires accepted_for { AcceptedFor input.now runs.now codes.now tables.now sizes }
    ensures { SentFrom input.now runs.now codes.now tables.now (replicate last_minute 0)
        (Stage.Asks sizes (first_turn sizes.text)) result }
{
    let mut list = [0u32; Minute::LAST as usize];
    let mut out = [0u8; printed::LINE_ROOM];
    let first = Turn {
        at: sizes.text,
        ride: 0,
        rides: 0,
    };
    sending::print(
        rt,
        input,
        runs,
        codes,
        tables,
        Stage::Asks(sizes, first),
        &mut list,
        &mut out,
    )
}

// More asks than the program holds get one answer.
fn refuse_asks(rt: &HostRuntime) {
    let mut out = [0u8; desk::TOLD_ROOM];
    let a = report::more_line(&mut out, 0, b"standard input", Text::INPUT_MOST as u32);
    let b = report::refusal_line(&mut out, a, Refusal::new(Reason::OverLimit, 0));
    files::tell(rt, &out, b);
}

// The check, and then the asks. The first n bytes of the room are the text.
fn serve(rt: &HostRuntime, held: &mut [u8], n: usize, tables: &[u8])
    requires { (held_room ≤ length held.old) × (n ≤ most_text + 1) }
{
    let mut runs = [0u32; Run::ROOM];
    let mut codes = [0u32; Stop::CODES_ROOM];
    let mut work = [0u16; both::ROOM];
    let mut out = [0u8; desk::TOLD_ROOM];
    let admitted = desk::admit(
        &held[..n],
        tables,
        &mut runs,
        &mut codes,
        &mut work,
        &mut out,
    );
    let counts = match admitted {
        Ok(counts) => counts,
        Err(told) => {
            files::tell(rt, &out, told);
            return;
        }
    };
    let k = read_asks(rt, held, n);
    if Text::INPUT_MOST < k {
        refuse_asks(rt);
        return;
    }
    let end = n + k;
    let sizes = Sizes {
        given: Given {
            stops: counts.stops,
            runs: counts.runs,
        },
        text: n,
        tables: tables.len(),
    };
    let _ = answer(rt, &held[..end], &runs, &codes, tables, sizes);
}

fn main(rt: HostRuntime) {
    if !files::has_words(
        &rt,
        files::arg_count(&rt),
        3,
        b"tables_ask TIMETABLE TABLES",
    ) {
        return;
    }
    let mut held = held_room();
    let Some(n) = read_text(&rt, &mut held) else {
        return;
    };
    let mut tables = desk::tables_room();
    let Some(m) = files::read_named(&rt, 2, tables::FILE_ROOM as u32, &mut tables) else {
        return;
    };
    serve(&rt, &mut held, n, &tables[..m]);
}
