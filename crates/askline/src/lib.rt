// What follows the timetable in the input of the program "journey": where the timetable ends, the lines after it, and what an ask line asks.
#![tactic(auto)]

ghost use Rattle.std.specs.Prelude.{◌≡◌, ◌+◌, ◌≤◌, ◌<◌, length};
ghost use Rattle.askline.specs.AskLine.{last_number, short_at, minutes_at, shape_at, shape_of, ask_line};
ghost use Rattle.askline.specs.Input.{timetable_end, piece_at};

use asks::Wanted;
use kinds::{Reason, Refusal};
use lines::Field;
use lookup::Known;
use words::Stretch;

// The three asks.
#[derive(Clone, Copy)]
pub enum Word {
    Early,
    Late,
    Short,
}

// Where FROM and TO stand, and the minutes.
#[derive(Clone, Copy)]
pub struct Shape {
    pub from: Field,
    pub to: Field,
    pub wanted: Wanted,
}

// What is asked: two stops by number, and the minutes as they are given.
#[derive(Clone, Copy)]
pub struct Ask {
    pub from: u32,
    pub to: u32,
    pub wanted: Wanted,
}

// What stands at a place of the input: a line, with the place of its LF; bytes without LF; or nothing more. (No `Option`: the two ends are told apart.)
#[derive(Clone, Copy)]
pub enum Piece {
    Line(usize),
    Unfinished,
    Done,
}

// The number with which the line ends.
#[tactic(auto, unfolding(crate::specs::AskLine::last_number))]
fn last_number(rest: Stretch<'_>) -> Result<u32, Reason>
    ensures { result ≡ last_number rest.entry.text.now rest.entry.from rest.entry.to }
{
    let last = rest.number()?;
    if last.end < rest.to {
        return Err(Reason::LineShape);
    }
    Ok(last.value)
}

// T and T2: a space ends the first, the end of the line the second.
#[tactic(auto, unfolding(crate::specs::AskLine::short_at))]
fn short_at(rest: Stretch<'_>) -> Result<Wanted, Reason>
    ensures { result ≡ short_at rest.entry.text.now rest.entry.from rest.entry.to }
{
    let first = rest.number()?;
    if rest.to <= first.end {
        return Err(Reason::LineShape);
    }
    let t2 = last_number(rest.after(first.end))?;
    Ok(Wanted::Short(first.value, t2))
}

// The minutes that belong to the word.
#[tactic(auto, unfolding(crate::specs::AskLine::minutes_at))]
fn minutes_at(word: Word, rest: Stretch<'_>) -> Result<Wanted, Reason>
    ensures { result ≡ minutes_at word rest.entry.text.now rest.entry.from rest.entry.to }
{
    match word {
        Word::Early => Ok(Wanted::Early(last_number(rest)?)),
        Word::Late => Ok(Wanted::Late(last_number(rest)?)),
        Word::Short => short_at(rest),
    }
}

// FROM, TO and the minutes: what stands behind the word and its space.
#[tactic(auto, unfolding(crate::specs::AskLine::shape_at))]
fn shape_at(word: Word, fields: Stretch<'_>) -> Result<Shape, Reason>
    ensures { result ≡ shape_at word fields.entry.text.now fields.entry.from fields.entry.to }
{
    let first = fields.seek(b' ');
    if fields.to <= first {
        return Err(Reason::LineShape);
    }
    let rest = fields.after(first);
    let second = rest.seek(b' ');
    if fields.to <= second {
        return Err(Reason::LineShape);
    }
    let wanted = minutes_at(word, rest.after(second))?;
    Ok(Shape {
        from: Field {
            at: fields.from,
            end: first,
        },
        to: Field {
            at: first + 1,
            end: second,
        },
        wanted,
    })
}

// The shape of the line: which of the three asks it is.
#[tactic(auto, using(words::specs::WordsLaws::begins_long), unfolding(crate::specs::AskLine::shape_of))]
fn shape_of(line: Stretch<'_>) -> Result<Shape, Reason>
    ensures { result ≡ shape_of line.entry.text.now line.entry.from line.entry.to }
{
    if line.begins(b"early ") {
        return shape_at(Word::Early, line.after(line.from + 5));
    }
    if line.begins(b"late ") {
        return shape_at(Word::Late, line.after(line.from + 4));
    }
    if line.begins(b"short ") {
        return shape_at(Word::Short, line.after(line.from + 5));
    }
    Err(Reason::LineShape)
}

// What the line asks: refused by 2, then 5.
#[tactic(auto, using(crate::specs::AskLineLaws::shape_within, crate::specs::AskLineLaws::shape_ill), unfolding(crate::specs::AskLine::ask_line))]
pub fn ask_at(known: Known<'_>, line: Stretch<'_>) -> Result<Ask, Reason>
    ensures { result ≡ ask_line known.entry.text.now known.entry.codes.now known.entry.stops line.entry.text.now line.entry.from line.entry.to }
{
    let shape = shape_of(line)?;
    let from = Stretch {
        text: line.text,
        from: shape.from.at,
        to: shape.from.end,
    };
    let to = Stretch {
        text: line.text,
        from: shape.to.at,
        to: shape.to.end,
    };
    let u = known.scan(from);
    if known.stops <= u {
        return Err(Reason::StopUnknown);
    }
    let v = known.scan(to);
    if known.stops <= v {
        return Err(Reason::StopUnknown);
    }
    Ok(Ask {
        from: u,
        to: v,
        wanted: shape.wanted,
    })
}

// How many bytes of the input are the timetable: through its first line that is "end".
#[tactic(auto, using(crate::specs::InputLaws::ending_turns))]
pub fn timetable_end(input: &[u8]) -> usize
    ensures { result ≡ timetable_end input.now }
{
    let mut at = 0;
    // Not a counted loop: how many lines there are shows as they are read.
    loop {
        let rest = Stretch {
            text: input,
            from: at,
            to: input.len(),
        };
        let end = rest.seek(b'\n');
        if input.len() <= end {
            return input.len();
        }
        let line = Stretch {
            text: input,
            from: at,
            to: end,
        };
        if line.is_word(b"end") {
            return end + 1;
        }
        at = end + 1;
    }
}

// The next line from `at` on.
#[tactic(auto, unfolding(crate::specs::Input::piece_at))]
pub fn piece_at(input: &[u8], at: usize) -> Piece
    ensures { result ≡ piece_at input.now at }
{
    if input.len() <= at {
        return Piece::Done;
    }
    let rest = Stretch {
        text: input,
        from: at,
        to: input.len(),
    };
    let end = rest.seek(b'\n');
    if input.len() <= end {
        return Piece::Unfinished;
    }
    Piece::Line(end)
}
