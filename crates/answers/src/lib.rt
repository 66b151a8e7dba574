// What an ask line gets, and what is printed for it, line by line: the head, and then a line for each ride.
#![tactic(auto)]

ghost use Rattle.std.specs.Prelude.{◌≡◌, ◌≤◌, length, get_or};
ghost use Rattle.loops.specs.Zero.{zeros};
ghost use Rattle.lookup.specs.Lookup.{Placed};
ghost use Rattle.timetable.specs.Numbers.{run_at};
ghost use Rattle.askline.specs.AskLine.{ask_line};
ghost use Rattle.printed.specs.Printed.{longest_line};
ghost use Rattle.printed.specs.Wrote.{Wrote};
ghost use Rattle.answers.specs.Answers.{LineGets, head_of, ride_line_of, Ridden};

use kinds::Refusal;
use lookup::Known;
use rides::Listed;
use timetable::Given;
use words::Stretch;

// What the line gets; its rides are in the list.
pub fn answer(
    text: &[u8],
    codes: &[u32],
    given: Given,
    runs: &[u32],
    tables: &[u8],
    line: Stretch<'_>,
    list: &mut [u32],
    work: &mut [u16],
) -> Result<Listed, Refusal>
    requires placed { Placed text.now codes.now given.stops }
    ensures line_gets { LineGets tables.now given runs.now (length work.old)
        (ask_line text.now codes.now given.stops line.entry.text.now line.entry.from line.entry.to) list.old list.new result }
    ensures work_after { work.new ≡ zeros work.old }
{
    let known = Known {
        text,
        codes,
        stops: given.stops,
    };
    // By match, not by `?`: a refused line leaves both buffers zero.
    match askline::ask_at(known, line) {
        Ok(ask) => rides::answered(
            tables, given, runs, ask.from, ask.to, ask.wanted, list, work,
        ),
        Err(reason) => {
            loops::zero(list);
            loops::zero(work);
            Err(Refusal::from(reason))
        }
    }
}

// The first line of an answer.
pub fn head(out: &mut [u8], answer: Result<Listed, Refusal>) -> usize
    requires { longest_line ≤ length out.old }
    ensures wrote { Wrote out.old 0 (head_of answer) out.new result }
    ensures upper_bound { result ≤ longest_line }
{
    match answer {
        Ok(j) => printed::at_line(out, j.dep as u32, j.arr as u32, j.rides),
        Err(r) => printed::no_line(out, r.reason.number()),
    }
}

// The line of ride k of the list.
pub fn ride(
    out: &mut [u8],
    text: &[u8],
    codes: &[u32],
    runs: &[u32],
    list: &[u32],
    k: usize,
) -> usize
    requires longest_line_in_bounds { longest_line ≤ length out.old }
    requires ridden { Ridden text.now codes.now runs.now list.now k }
    ensures wrote { Wrote out.old 0
        (ride_line_of text.now codes.now (run_at runs.now (get_or list.now k 0))) out.new result }
    ensures upper_bound { result ≤ longest_line }
{
    let run = timetable::run_at(runs, list[k] as usize);
    let from = lookup::code_at(codes, run.from as usize);
    let to = lookup::code_at(codes, run.to as usize);
    printed::ride_line(
        out,
        text,
        from,
        to,
        run.dep as u32,
        run.arr as u32,
        run.trip as u32,
    )
}
