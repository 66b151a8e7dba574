// What the programs for people print, line by line, into a buffer that the caller lends: refusals in words, labels, runs and stops spelled out.
// Each function answers the place after the bytes that it wrote; what stands in the buffer elsewhere is as it was.
#![tactic(auto)]

ghost use Rattle.std.specs.Prelude.{◌≡◌, true, ◌∷◌, ◌++◌, ◌+◌, ◌≤◌, ◌<◌, length};
ghost use Rattle.words.specs.Words.{space};
ghost use Rattle.kinds.specs.Limits.{most_code};
ghost use Rattle.printed.specs.Printed.{most_digits, decimal, code_of};
ghost use Rattle.kinds.specs.Kinds.{CodeIn};
ghost use Rattle.printed.specs.Wrote.{Wrote};
ghost use Rattle.report.specs.Texts.{counted};
ghost use Rattle.report.specs.TextLines.{text_line, short_b, LineFrom};
ghost use Rattle.report.specs.Words.{words_of, most_words, line_place, place_words, refusal_line};
ghost use Rattle.report.specs.Lines.{accepted_line, change_of, ChangeIn, times_words, label_line, set_words, pivot_words, entry_line};
ghost use Rattle.report.specs.Lines.{minutes_and_trip, numbered_run, numbered_stop, written_line, more_line, report_room};

use kinds::{Code, Reason, Refusal};
use printed::{put_lf, put_number};
use words::Stretch;

// Room for any line.
pub const LINE_ROOM: usize = 280;

pub fn line_room() -> usize
    ensures value { result ≡ LINE_ROOM }
    ensures value_2 { result ≡ report_room }
{
    LINE_ROOM
}

// ---- Pieces.

fn put_text(out: &mut [u8], at: usize, s: &[u8]) -> usize
    requires { at + length s.now ≤ length out.old }
    ensures { Wrote out.old at s.now out.new result }
{
    printed::put_part(out, at, s, 0, s.len())
}

// A text and a number.
fn put_counted(out: &mut [u8], at: usize, s: &[u8], n: u32) -> usize
    requires { at + length s.now + 1 + most_digits ≤ length out.old }
    ensures wrote { Wrote out.old at (s.now ++ (space ∷ decimal n)) out.new result }
    ensures upper_bound { result ≤ at + length s.now + 1 + most_digits }
{
    let a = put_text(out, at, s);
    put_number(out, a, n)
}

// A text and a code.
fn put_named(out: &mut [u8], at: usize, s: &[u8], text: &[u8], code: Code) -> usize
    requires most_code_in_bounds { at + length s.now + 1 + most_code ≤ length out.old }
    requires code_in { CodeIn text.now code }
    ensures wrote { Wrote out.old at (s.now ++ (space ∷ code_of text.now code)) out.new result }
    ensures upper_bound { result ≤ at + length s.now + 1 + most_code }
{
    let a = put_text(out, at, s);
    printed::put_code(out, a, text, code)
}

// ---- Refusals.

// Where line n of s begins, counted from 0; the end of s where it has no such line.
fn line_from(s: &[u8], n: u32) -> usize
    ensures { LineFrom s.now n result }
{
    let mut from = 0;
    for _ in 0..n {
        let rest = Stretch {
            text: s,
            from,
            to: s.len(),
        };
        let end = rest.seek(b'\n');
        if end == s.len() {
            return end;
        }
        from = end + 1;
    }
    from
}

// Line n of s, without its end; nothing where s has no such line. The lines of s are short.
fn put_line(out: &mut [u8], at: usize, s: &[u8], n: u32) -> usize
    requires most_words_in_bounds { at + most_words ≤ length out.old }
    requires s_value { short_b most_words most_words s.now ≡ true }
    ensures wrote { Wrote out.old at (text_line s.now n) out.new result }
    ensures upper_bound { result ≤ at + most_words }
{
    let from = line_from(s, n);
    let rest = Stretch {
        text: s,
        from,
        to: s.len(),
    };
    let end = rest.seek(b'\n');
    printed::put_part(out, at, s, from, end - from)
}

// The words of any refusal: line by line in the order of their numbers, after an empty line for 0, which is no refusal's. Another number has none.
fn put_words(out: &mut [u8], at: usize, number: u32) -> usize
    requires { at + most_words ≤ length out.old }
    ensures wrote { Wrote out.old at (words_of number) out.new result }
    ensures upper_bound { result ≤ at + most_words }
{
    let texts = b"\n\
        the first line is not \"timetable 1\"\n\
        the line is missing or unfinished, or has no form that may stand here\n\
        the stop code is empty, too long, or holds a character that no code has\n\
        an earlier stop has this code\n\
        no stop has this code\n\
        the run ends at the stop where it starts\n\
        a number is out of range, or the run does not arrive after it leaves\n\
        there are more stops or runs, or a longer text, than the limits allow\n\
        the file holds no tables: it is too short, begins otherwise, or has no stops\n\
        the tables are cut short or too long, or have more labels than the limit\n\
        the tables hold a label that is not good, or not in its order\n\
        no stop has this number\n\
        both stops are the same\n\
        the minute is later than the last one of a day\n\
        the first minute is later than the second\n\
        there is no journey\n\
        the lent room is too short\n\
        a run or a label of the journey is missing\n\
        the tables hold a label that the timetable does not support\n\
        the tables miss a journey that begins with this run and ends at this stop\n\
        the tables are for another number of stops than the timetable's\n\
        the timetable needs more labels than the limit\n\
        ";
    put_line(out, at, texts, number)
}

// The line of the timetable, if one is named.
fn put_line_place(out: &mut [u8], at: usize, place: u32) -> usize
    requires { at + 40 ≤ length out.old }
    ensures wrote { Wrote out.old at (line_place place) out.new result }
    ensures upper_bound { result ≤ at + 40 }
{
    if place == 0 {
        return at;
    }
    let a = put_counted(out, at, b" at line", place);
    put_text(out, a, b" of the timetable")
}

// The place of a refusal.
fn put_place(out: &mut [u8], at: usize, r: Refusal) -> usize
    requires { at + 40 ≤ length out.old }
    ensures wrote { Wrote out.old at (place_words r) out.new result }
    ensures upper_bound { result ≤ at + 40 }
{
    match r.reason {
        Reason::LabelBad | Reason::Unsupported => put_counted(out, at, b" at label", r.place),
        Reason::Gap => {
            let a = put_counted(out, at, b" at run", r.place);
            put_counted(out, a, b", stop", r.stop)
        }
        reason if reason.number() <= Reason::OverLimit.number() => put_line_place(out, at, r.place),
        _ => at,
    }
}

// "refused NUMBER at PLACE: WORDS"
pub fn refusal_line(out: &mut [u8], at: usize, r: Refusal) -> usize
    requires { at + report_room ≤ length out.old }
    ensures wrote { Wrote out.old at (refusal_line r) out.new result }
    ensures upper_bound { result ≤ at + report_room }
{
    let a = put_counted(out, at, b"refused", r.reason.number());
    let b = put_place(out, a, r);
    let c = put_text(out, b, b": ");
    let d = put_words(out, c, r.reason.number());
    put_lf(out, d)
}

// ---- Other lines.

// "accepted"
pub fn accepted_line(out: &mut [u8], at: usize) -> usize
    requires { at + report_room ≤ length out.old }
    ensures wrote { Wrote out.old at accepted_line out.new result }
    ensures upper_bound { result ≤ at + report_room }
{
    let a = put_text(out, at, b"accepted");
    put_lf(out, a)
}

// Where one changes; `None` is a label with no pivot, along which nobody changes.
fn put_change(out: &mut [u8], at: usize, text: &[u8], change: Option<Code>) -> usize
    requires at_in_bounds { at + 80 ≤ length out.old }
    requires change_in { ChangeIn text.now change }
    ensures wrote { Wrote out.old at (change_of text.now change) out.new result }
    ensures upper_bound { result ≤ at + 80 }
{
    match change {
        None => at,
        Some(code) => put_named(out, at, b", change at", text, code),
    }
}

// When it leaves and when it arrives.
fn put_times(out: &mut [u8], at: usize, dep: u32, arr: u32) -> usize
    requires { at + 40 ≤ length out.old }
    ensures wrote { Wrote out.old at (times_words dep arr) out.new result }
    ensures upper_bound { result ≤ at + 40 }
{
    let a = put_counted(out, at, b", leaves", dep);
    put_counted(out, a, b", arrives", arr)
}

// "label K: FROM to TO, leaves DEP, arrives ARR, change at STOP"
pub fn label_line(
    out: &mut [u8],
    at: usize,
    text: &[u8],
    k: u32,
    from: Code,
    to: Code,
    dep: u32,
    arr: u32,
    change: Option<Code>,
) -> usize
    requires report_room_in_bounds { at + report_room ≤ length out.old }
    requires code_in { CodeIn text.now from × CodeIn text.now to × ChangeIn text.now change }
    ensures wrote { Wrote out.old at (label_line text.now k from to dep arr change) out.new result }
    ensures upper_bound { result ≤ at + report_room }
{
    let a = put_counted(out, at, b"label", k);
    let b = put_named(out, a, b":", text, from);
    let c = put_named(out, b, b" to", text, to);
    let d = put_times(out, c, dep, arr);
    let e = put_change(out, d, text, change);
    put_lf(out, e)
}

// Whose label it is.
fn put_set(out: &mut [u8], at: usize, outgoing: bool, owner: u32) -> usize
    requires { at + 40 ≤ length out.old }
    ensures wrote { Wrote out.old at (counted (set_words outgoing) owner) out.new result }
    ensures upper_bound { result ≤ at + 40 }
{
    if outgoing {
        return put_counted(out, at, b": an out-label of stop", owner);
    }
    put_counted(out, at, b": an in-label of stop", owner)
}

// A label's pivot by its number; `None` is a label that has none.
fn put_pivot(out: &mut [u8], at: usize, pivot: Option<u32>) -> usize
    requires { at + 20 ≤ length out.old }
    ensures wrote { Wrote out.old at (pivot_words pivot) out.new result }
    ensures upper_bound { result ≤ at + 20 }
{
    match pivot {
        None => put_text(out, at, b", no pivot"),
        Some(p) => put_counted(out, at, b", pivot", p),
    }
}

// "label K: an out-label of stop OWNER, hub HUB, leaves DEP, arrives ARR, pivot P"
pub fn entry_line(
    out: &mut [u8],
    at: usize,
    k: u32,
    outgoing: bool,
    owner: u32,
    hub: u32,
    dep: u32,
    arr: u32,
    pivot: Option<u32>,
) -> usize
    requires { at + report_room ≤ length out.old }
    ensures wrote { Wrote out.old at (entry_line k outgoing owner hub dep arr pivot) out.new result }
    ensures upper_bound { result ≤ at + report_room }
{
    let a = put_counted(out, at, b"label", k);
    let b = put_set(out, a, outgoing, owner);
    let c = put_counted(out, b, b", hub", hub);
    let d = put_times(out, c, dep, arr);
    let e = put_pivot(out, d, pivot);
    put_lf(out, e)
}

// A run's two minutes and its trip.
fn put_run_numbers(out: &mut [u8], at: usize, dep: u32, arr: u32, trip: u32) -> usize
    requires { at + 33 ≤ length out.old }
    ensures wrote { Wrote out.old at (minutes_and_trip dep arr trip) out.new result }
    ensures upper_bound { result ≤ at + 33 }
{
    let a = put_number(out, at, dep);
    let b = put_number(out, a, arr);
    put_number(out, b, trip)
}

// "run I: FROM TO DEP ARR TRIP"
pub fn run_line(
    out: &mut [u8],
    at: usize,
    text: &[u8],
    i: u32,
    from: Code,
    to: Code,
    dep: u32,
    arr: u32,
    trip: u32,
) -> usize
    requires report_room_in_bounds { at + report_room ≤ length out.old }
    requires code_in { CodeIn text.now from × CodeIn text.now to }
    ensures wrote { Wrote out.old at (numbered_run text.now i from to dep arr trip) out.new result }
    ensures upper_bound { result ≤ at + report_room }
{
    let a = put_counted(out, at, b"run", i);
    let b = put_named(out, a, b":", text, from);
    let c = printed::put_code(out, b, text, to);
    let d = put_run_numbers(out, c, dep, arr, trip);
    put_lf(out, d)
}

// "stop J: CODE"
pub fn stop_line(out: &mut [u8], at: usize, text: &[u8], j: u32, code: Code) -> usize
    requires report_room_in_bounds { at + report_room ≤ length out.old }
    requires code_in { CodeIn text.now code }
    ensures wrote { Wrote out.old at (numbered_stop text.now j code) out.new result }
    ensures upper_bound { result ≤ at + report_room }
{
    let a = put_counted(out, at, b"stop", j);
    let b = put_named(out, a, b":", text, code);
    put_lf(out, b)
}

// "written: STOPS stops, RUNS runs, LABELS labels, LONG bytes"
pub fn written_line(
    out: &mut [u8],
    at: usize,
    stops: u32,
    runs: u32,
    labels: u32,
    long: u32,
) -> usize
    requires { at + report_room ≤ length out.old }
    ensures wrote { Wrote out.old at (written_line stops runs labels long) out.new result }
    ensures upper_bound { result ≤ at + report_room }
{
    let a = put_counted(out, at, b"written:", stops);
    let b = put_counted(out, a, b" stops,", runs);
    let c = put_counted(out, b, b" runs,", labels);
    let d = put_counted(out, c, b" labels,", long);
    let e = put_text(out, d, b" bytes");
    put_lf(out, e)
}

// "NAME has more than MOST bytes"
pub fn more_line(out: &mut [u8], at: usize, name: &[u8], most: u32) -> usize
    requires { at + length name.now + report_room ≤ length out.old }
    ensures wrote { Wrote out.old at (more_line name.now most) out.new result }
    ensures upper_bound { result ≤ at + length name.now + report_room }
{
    let a = put_text(out, at, name);
    let b = put_counted(out, a, b" has more than", most);
    let c = put_text(out, b, b" bytes");
    put_lf(out, c)
}
