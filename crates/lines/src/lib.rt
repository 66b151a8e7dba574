// One line of the timetable text: what it says, and nothing of where it stands in the file.
#![tactic(auto)]

ghost use Rattle.std.specs.Prelude.{◌≡◌, ◌+◌, ◌≤◌, ◌<◌, length};
ghost use Rattle.kinds.specs.Limits.{most_text};
ghost use Rattle.lookup.specs.Index.{CodesIndexed};
ghost use Rattle.lines.specs.Lines.{numbers_at, fields_at, read_stop_line, run_fields, read_run_line, line_of, FieldsWithin};

use kinds::{Code, Reason, Run, Stop};
use lookup::Known;
use words::Stretch;

// The numbers of a run line.
#[derive(Clone, Copy)]
pub struct Numbers {
    pub dep: u32,
    pub arr: u32,
    pub trip: u32,
}

// Where a field begins, and where it ends.
#[derive(Clone, Copy)]
pub struct Field {
    pub at: usize,
    pub end: usize,
}

// The codes of a run line and its numbers.
#[derive(Clone, Copy)]
pub struct Fields {
    pub from: Field,
    pub to: Field,
    pub numbers: Numbers,
}

// What a line says: a stop's code, a run, or the end.
#[derive(Clone, Copy)]
pub enum Line {
    Stop(Code),
    Run(Run),
    End,
}

// DEP, ARR and TRIP: a space ends the first two, the end of the line the third.
#[tactic(auto, unfolding(crate::specs::Lines::numbers_at))]
fn numbers_at(rest: Stretch<'_>) -> Result<Numbers, Reason>
    ensures { result ≡ numbers_at rest.entry.text.now rest.entry.from rest.entry.to }
{
    let dep = rest.number()?;
    if rest.to <= dep.end {
        return Err(Reason::LineShape);
    }
    let rest = rest.after(dep.end);
    let arr = rest.number()?;
    if rest.to <= arr.end {
        return Err(Reason::LineShape);
    }
    let trip = rest.after(arr.end).number()?;
    if trip.end < rest.to {
        return Err(Reason::LineShape);
    }
    Ok(Numbers {
        dep: dep.value,
        arr: arr.value,
        trip: trip.value,
    })
}

// The five fields after the word. A space ends FROM and TO, which may be anything else.
#[tactic(auto, unfolding(crate::specs::Lines::fields_at))]
fn fields_at(fields: Stretch<'_>) -> Result<Fields, Reason>
    ensures { result ≡ fields_at fields.entry.text.now fields.entry.from fields.entry.to }
{
    let first = fields.seek(b' ');
    if fields.to <= first {
        return Err(Reason::LineShape);
    }
    let rest = fields.after(first);
    let second = rest.seek(b' ');
    if fields.to <= second {
        return Err(Reason::LineShape);
    }
    let numbers = numbers_at(rest.after(second))?;
    Ok(Fields {
        from: Field {
            at: fields.from,
            end: first,
        },
        to: Field {
            at: first + 1,
            end: second,
        },
        numbers,
    })
}

// A stop line, which says this code.
#[tactic(auto, unfolding(crate::specs::Lines::read_stop_line))]
fn stop_line(known: Known<'_>, slots: &[u64], runs: u32, code: Stretch<'_>) -> Result<Line, Reason>
    requires codes_indexed { CodesIndexed known.text.now known.codes.now known.stops slots.now }
    requires one_text { code.text.now ≡ known.text.now }
    requires short { length code.text.now ≤ most_text }
    ensures { result ≡ read_stop_line known.entry.text.now known.entry.codes.now known.entry.stops runs code.entry.from code.entry.to }
{
    if 0 < runs {
        return Err(Reason::LineShape);
    }
    if !code.is_code() {
        return Err(Reason::CodeBad);
    }
    if known.find(slots, code) < known.stops {
        return Err(Reason::CodeRepeated);
    }
    if Stop::MOST <= known.stops as usize {
        return Err(Reason::OverLimit);
    }
    Ok(Line::Stop(Code {
        start: code.from as u32,
        length: (code.to - code.from) as u32,
    }))
}

// A run line's fields: which stops they name, the run, and whether there can be one more.
#[tactic(auto, unfolding(crate::specs::Lines::run_fields))]
fn run_fields(known: Known<'_>, slots: &[u64], runs: u32, fields: Fields) -> Result<Line, Reason>
    requires codes_indexed { CodesIndexed known.text.now known.codes.now known.stops slots.now }
    requires fields_within { FieldsWithin known.text.now fields }
    ensures { result ≡ run_fields known.entry.text.now known.entry.codes.now known.entry.stops runs fields }
{
    let numbers = fields.numbers;
    let from = Stretch {
        text: known.text,
        from: fields.from.at,
        to: fields.from.end,
    };
    let to = Stretch {
        text: known.text,
        from: fields.to.at,
        to: fields.to.end,
    };
    let u = known.find(slots, from);
    let v = known.find(slots, to);
    let run = Run::new(known.stops, u, v, numbers.dep, numbers.arr, numbers.trip)?;
    if Run::MOST <= runs as usize {
        return Err(Reason::OverLimit);
    }
    Ok(Line::Run(run))
}

// A run line, of which this stands behind the word.
#[tactic(auto, using(crate::specs::LinesLaws::fields_within), unfolding(crate::specs::Lines::read_run_line))]
fn run_line(known: Known<'_>, slots: &[u64], runs: u32, rest: Stretch<'_>) -> Result<Line, Reason>
    requires codes_indexed { CodesIndexed known.text.now known.codes.now known.stops slots.now }
    requires one_text { rest.text.now ≡ known.text.now }
    ensures { result ≡ read_run_line known.entry.text.now known.entry.codes.now known.entry.stops runs rest.entry.from rest.entry.to }
{
    if known.stops == 0 {
        return Err(Reason::LineShape);
    }
    let fields = fields_at(rest)?;
    run_fields(known, slots, runs, fields)
}

// A line, which stands in the text of the codes: which of the three it is, or why it is refused.
#[tactic(auto, using(words::specs::WordsLaws::begins_long), unfolding(crate::specs::Lines::line_of))]
pub fn line_at(
    known: Known<'_>,
    slots: &[u64],
    runs: u32,
    line: Stretch<'_>,
) -> Result<Line, Reason>
    requires codes_indexed { CodesIndexed known.text.now known.codes.now known.stops slots.now }
    requires one_text { line.text.now ≡ known.text.now }
    requires short { length line.text.now ≤ most_text }
    ensures { result ≡ line_of known.entry.text.now known.entry.codes.now known.entry.stops runs line.entry.from line.entry.to }
{
    if line.begins(b"run ") {
        return run_line(known, slots, runs, line.after(line.from + 3));
    }
    if line.begins(b"stop ") {
        return stop_line(known, slots, runs, line.after(line.from + 4));
    }
    if line.is_word(b"end") && 0 < known.stops {
        return Ok(Line::End);
    }
    Err(Reason::LineShape)
}
