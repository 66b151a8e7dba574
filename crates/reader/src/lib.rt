// The reader of timetable text: lines to numbers, line by line; the first bad line decides.
#![tactic(auto)]

ghost use Rattle.std.specs.Prelude.{◌≡◌, ◌+◌, ◌*◌, ◌≤◌, length};
ghost use Rattle.loops.specs.Zero.{zeros};
ghost use Rattle.kinds.specs.Limits.{run_numbers};
ghost use Rattle.reader.specs.Text.{put_run, read_text, answer_of, runs_of, codes_of};
ghost use Rattle.reader.specs.Reading.{lines_of, filled_for, Readable};

use kinds::{Reason, Refusal, Run, Stop, Text};
use lines::Line;
use lookup::Known;
use words::Stretch;

// How many stops and runs were read.
#[derive(Clone, Copy)]
pub struct Counts {
    pub stops: u32,
    pub runs: u32,
}

// The numbers of run k, put into the list.
#[tactic(auto, unfolding(crate::specs::Text::put_run))]
fn put_run(runs: &mut [u32], k: u32, run: Run)
    requires { run_numbers * k + run_numbers ≤ length runs.old }
    ensures { runs.new ≡ put_run runs.old k run }
{
    let at = Run::NUMBERS * (k as usize);
    runs[at] = run.from as u32;
    runs[at + 1] = run.to as u32;
    runs[at + 2] = run.dep as u32;
    runs[at + 3] = run.arr as u32;
    runs[at + 4] = run.trip as u32;
}

// The lines after the first, into rooms that are zero. A refusal leaves what was written.
#[tactic(auto, using(crate::specs::ReadingLaws::reading_turns))]
fn read_lines(
    text: &[u8],
    from: usize,
    runs: &mut [u32],
    codes: &mut [u32],
    slots: &mut [u64],
) -> Result<Counts, Refusal>
    requires { Readable text.now from runs.old codes.old slots.old }
    ensures value { result ≡ answer_of (lines_of text.now from (length runs.old) (length codes.old)) }
    ensures filled_for { filled_for (lines_of text.now from (length runs.old) (length codes.old))
        runs.new codes.new }
{
    let mut at = from;
    let mut line: u32 = 2;
    let mut stops: u32 = 0;
    let mut count: u32 = 0;
    // Not a counted loop: how many lines there are shows as they are read.
    loop {
        let rest = Stretch {
            text,
            from: at,
            to: text.len(),
        };
        let end = rest.seek(b'\n');
        if text.len() <= end {
            return Err(Refusal::new(Reason::LineShape, line));
        }
        let known = Known { text, codes, stops };
        let said = Stretch {
            text,
            from: at,
            to: end,
        };
        // By match, not by `?`: here a refused line gets its place.
        match lines::line_at(known, slots, count, said) {
            Ok(Line::Stop(code)) => {
                let start = code.start as usize;
                let length = code.length as usize;
                lookup::enter(text, codes, slots, stops, start, length);
                stops += 1;
            }
            Ok(Line::Run(run)) => {
                put_run(runs, count, run);
                count += 1;
            }
            Ok(Line::End) => {
                if end + 1 < text.len() {
                    return Err(Refusal::new(Reason::LineShape, line + 1));
                }
                return Ok(Counts { stops, runs: count });
            }
            Err(reason) => return Err(Refusal::new(reason, line)),
        }
        line += 1;
        at = end + 1;
    }
}

// The whole text, into rooms that are zero. A refusal leaves what was written.
#[tactic(auto, unfolding(crate::specs::Text::read_text, crate::specs::Reading::lines_of))]
fn read_text(text: &[u8], runs: &mut [u32], codes: &mut [u32]) -> Result<Counts, Refusal>
    requires { (runs.old ≡ zeros runs.old) × (codes.old ≡ zeros codes.old) }
    ensures value { result ≡ answer_of (read_text text.now (length runs.old) (length codes.old)) }
    ensures filled_for { filled_for (read_text text.now (length runs.old) (length codes.old))
        runs.new codes.new }
{
    if runs.len() < Run::ROOM {
        return Err(Refusal::new(Reason::RoomShort, 0));
    }
    if codes.len() < Stop::CODES_ROOM {
        return Err(Refusal::new(Reason::RoomShort, 0));
    }
    if Text::MOST < text.len() {
        return Err(Refusal::new(Reason::OverLimit, 0));
    }
    let first = b"timetable 1\n";
    let whole = Stretch {
        text,
        from: 0,
        to: text.len(),
    };
    if whole.begins(first) {
        let mut slots = [0u64; lookup::SLOTS];
        return read_lines(text, first.len(), runs, codes, &mut slots);
    }
    Err(Refusal::new(Reason::FirstLine, 1))
}

// The timetable text, read into the two rooms: five numbers a run, and start and length of each stop's code.
// What is not written is zero, and after a refusal both rooms are.
#[tactic(auto, using(loops::specs::ZeroLaws::zeros_as, crate::specs::ReadingLaws::filled_whole, crate::specs::ReadingLaws::filled_refused))]
pub fn read(text: &[u8], runs: &mut [u32], codes: &mut [u32]) -> Result<Counts, Refusal>
    ensures value { result ≡ answer_of (read_text text.now (length runs.old) (length codes.old)) }
    ensures runs_after { runs.new ≡
        runs_of (read_text text.now (length runs.old) (length codes.old)) (length runs.old) }
    ensures codes_after { codes.new ≡
        codes_of (read_text text.now (length runs.old) (length codes.old)) (length codes.old) }
{
    loops::zero(runs);
    loops::zero(codes);
    let answer = read_text(text, runs, codes);
    if answer.is_err() {
        loops::zero(runs);
        loops::zero(codes);
    }
    answer
}
