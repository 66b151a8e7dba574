// What people are told of a check and of a build.
#![tactic(auto)]

ghost use Rattle.std.specs.Prelude.{◌≡◌, List, ◌++◌, ℕ, ◌+◌, ◌*◌, ◌≤◌, ◌<◌, ◌⊎◌, length};
ghost use Rattle.loops.specs.Zero.{zeros};
ghost use Rattle.journeys.specs.Tables.{outs, ins, Entry, LabelAt};
ghost use Rattle.kinds.specs.Limits.{no_pivot, runs_room, codes_room, most_text};
ghost use Rattle.tables.specs.File.{tables_of, file_room, labels_of, label_at, pivot_of};
ghost use Rattle.tables.specs.Judged.{judged_tables};
ghost use Rattle.tables.specs.Good.{Room, GoodFile};
ghost use Rattle.reader.specs.Text.{read_text, runs_of, codes_of};
ghost use Rattle.lookup.specs.Lookup.{Named};
ghost use Rattle.printed.specs.Wrote.{Wrote};
ghost use Rattle.report.specs.Lines.{report_room};
ghost use Rattle.report.specs.Words.{refusal_line};
ghost use Rattle.desk.specs.Spelled.{change_at, LabelSpelled, side_of, pivot_said, BadSpelled, run_spelled, stop_spelled, Spelled, BadPlace, AllNamed};
ghost use Rattle.desk.specs.Spelled.{RunNamed, Spellable};
ghost use Rattle.both.specs.Both.{work_room};
ghost use Rattle.desk.specs.Told.{told_room, before, AdmitOf, AdmitShort, CheckTold, BuildTold, MadeShort};

use builder::Work;
use kinds::{Code, Label, Reason, Refusal, Run, Stop, Text};
use lookup::code_at;
use reader::Counts;
use tables::File;
use timetable::Given;

// So many bytes of tables were made, and so many tell of them.
#[derive(Clone, Copy)]
pub struct Made {
    pub tables: usize,
    pub told: usize,
}

// Room for all that is told of a check or a build.
pub const TOLD_ROOM: usize = 3 * report::LINE_ROOM;

pub fn told_room() -> usize
    ensures value { result ≡ TOLD_ROOM }
    ensures value_2 { result ≡ told_room }
{
    TOLD_ROOM
}

// Room for a timetable text, and for a tables file, with one byte more: that tells a longer file from one that fits.
pub fn text_room() -> [u8; Text::MOST + 1]
    ensures { most_text + 1 ≡ length result }
{
    [0; Text::MOST + 1]
}

pub fn tables_room() -> [u8; tables::FILE_ROOM + 1]
    ensures { file_room + 1 ≡ length result }
{
    [0; tables::FILE_ROOM + 1]
}

// ---- A label by its set, and by its ends.

// A label is an out-label or an in-label of its owner.
#[derive(Clone, Copy)]
struct Whose {
    outgoing: bool,
    owner: u16,
}

#[derive(Clone, Copy)]
struct Ends {
    from: u16,
    to: u16,
}

// The stop that owns label k: the first whose labels end behind it.
fn owner_of(file: File<'_>, k: usize) -> u16
    requires { k < labels_of file.bytes.now }
    ensures { (result < file.entry.stops) × ((tables_of file.entry.bytes.now).start outs result ≤ k) ×
        (k < (tables_of file.entry.bytes.now).end ins result) }
{
    for s in 0..file.stops {
        let ins = file.ins_of(s);
        if k < ins.end {
            return s;
        }
    }
    file.stops
}

// Whose label k is; it need not be good.
fn set_of(file: File<'_>, k: usize) -> Whose
    requires { k < labels_of file.bytes.now }
    ensures { Entry (tables_of file.entry.bytes.now) (side_of result.outgoing) k result.owner (label_at file.entry.bytes.now k).hub
        (label_at file.entry.bytes.now k).dep
        (label_at file.entry.bytes.now k).arr (pivot_of (label_at file.entry.bytes.now k).pivot) }
{
    let owner = owner_of(file, k);
    let outs = file.outs_of(owner);
    Whose {
        outgoing: k < outs.end,
        owner,
    }
}

// Label k is a label from one stop to another.
fn ends_of(file: File<'_>, k: usize) -> Ends
    requires { k < labels_of file.bytes.now }
    ensures { LabelAt (tables_of file.entry.bytes.now) k result.from result.to (label_at file.entry.bytes.now k).dep
        (label_at file.entry.bytes.now k).arr
        (pivot_of (label_at file.entry.bytes.now k).pivot) }
{
    let l = file.label_at(k);
    let whose = set_of(file, k);
    if whose.outgoing {
        Ends {
            from: whose.owner,
            to: l.hub,
        }
    } else {
        Ends {
            from: l.hub,
            to: whose.owner,
        }
    }
}

// ---- What a refusal names, spelled out.

// A label's pivot by its number; `None` is a label that has none.
fn pivot_of(pivot: u16) -> Option<u32>
    ensures { result ≡ pivot_said (pivot_of pivot) }
{
    if pivot == Label::NO_PIVOT {
        None
    } else {
        Some(pivot as u32)
    }
}

// Where one changes, by a label's pivot; `None` is a label with no pivot, along which nobody changes.
fn change_of(codes: &[u32], pivot: u16) -> Option<Code>
    requires { (pivot ≡ no_pivot) ⊎ (2 * pivot + 2 ≤ length codes.now) }
    ensures { result ≡ change_at codes.now (pivot_of pivot) }
{
    let w = pivot_of(pivot)?;
    Some(code_at(codes, w as usize))
}

fn spell_label(
    out: &mut [u8],
    at: usize,
    text: &[u8],
    codes: &[u32],
    tables: &[u8],
    n: u16,
    k: u32,
) -> usize
    requires report_room_in_bounds { at + report_room ≤ length out.old }
    requires all_named { AllNamed text.now codes.now n }
    requires good_file { GoodFile tables.now n × (k < labels_of tables.now) }
    ensures by_index { (xs : List ℕ) × LabelSpelled (tables_of tables.now) text.now codes.now k xs ×
        Wrote out.old at xs out.new result }
    ensures upper_bound { result ≤ at + report_room }
{
    let file = File {
        bytes: tables,
        stops: n,
    };
    let i = k as usize;
    let ends = ends_of(file, i);
    let l = file.label_at(i);
    let from = code_at(codes, ends.from as usize);
    let to = code_at(codes, ends.to as usize);
    let change = change_of(codes, l.pivot);
    report::label_line(
        out,
        at,
        text,
        k,
        from,
        to,
        l.dep as u32,
        l.arr as u32,
        change,
    )
}

// A label that is not good, by its numbers; and the code of the stop that owns it, where the timetable has that stop.
fn spell_bad(
    out: &mut [u8],
    at: usize,
    text: &[u8],
    codes: &[u32],
    tables: &[u8],
    n: u16,
    k: u32,
) -> usize
    requires report_room_in_bounds { at + 2 * report_room ≤ length out.old }
    requires all_named { AllNamed text.now codes.now n }
    requires bad_place { BadPlace tables.now k }
    ensures by_index { (xs : List ℕ) × BadSpelled (tables_of tables.now) text.now codes.now n k xs ×
        Wrote out.old at xs out.new result }
    ensures upper_bound { result ≤ at + 2 * report_room }
{
    let file = File {
        bytes: tables,
        stops: tables::stop_count(tables),
    };
    let i = k as usize;
    let whose = set_of(file, i);
    let l = file.label_at(i);
    let pivot = pivot_of(l.pivot);
    let a = report::entry_line(
        out,
        at,
        k,
        whose.outgoing,
        whose.owner as u32,
        l.hub as u32,
        l.dep as u32,
        l.arr as u32,
        pivot,
    );
    if whose.owner < n {
        return spell_stop(out, a, text, codes, whose.owner as u32);
    }
    a
}

fn spell_run(out: &mut [u8], at: usize, text: &[u8], codes: &[u32], runs: &[u32], i: u32) -> usize
    requires report_room_in_bounds { at + report_room ≤ length out.old }
    requires run_named { RunNamed text.now codes.now runs.now i }
    ensures wrote { Wrote out.old at (run_spelled text.now codes.now runs.now i) out.new result }
    ensures upper_bound { result ≤ at + report_room }
{
    let run = timetable::run_at(runs, i as usize);
    let from = code_at(codes, run.from as usize);
    let to = code_at(codes, run.to as usize);
    report::run_line(
        out,
        at,
        text,
        i,
        from,
        to,
        run.dep as u32,
        run.arr as u32,
        run.trip as u32,
    )
}

fn spell_stop(out: &mut [u8], at: usize, text: &[u8], codes: &[u32], j: u32) -> usize
    requires report_room_in_bounds { at + report_room ≤ length out.old }
    requires named { Named text.now codes.now j }
    ensures wrote { Wrote out.old at (stop_spelled text.now codes.now j) out.new result }
    ensures upper_bound { result ≤ at + report_room }
{
    let code = code_at(codes, j as usize);
    report::stop_line(out, at, text, j, code)
}

// 11 and 19 name a label, 20 a run and a stop; other refusals of the check name nothing more.
fn spell(
    out: &mut [u8],
    at: usize,
    text: &[u8],
    codes: &[u32],
    runs: &[u32],
    tables: &[u8],
    n: u16,
    x: Refusal,
) -> usize
    requires report_room_in_bounds { at + 2 * report_room ≤ length out.old }
    requires spellable { Spellable tables.now text.now codes.now runs.now n x }
    ensures by_index { (xs : List ℕ) × Spelled (tables_of tables.now) text.now codes.now runs.now n x xs ×
        Wrote out.old at xs out.new result }
    ensures upper_bound { result ≤ at + 2 * report_room }
{
    match x.reason {
        Reason::LabelBad => spell_bad(out, at, text, codes, tables, n, x.place),
        Reason::Unsupported => spell_label(out, at, text, codes, tables, n, x.place),
        Reason::Gap => {
            let a = spell_run(out, at, text, codes, runs, x.place);
            spell_stop(out, a, text, codes, x.stop)
        }
        _ => at,
    }
}

// ---- The check.

// A refusal of the check.
fn refuse(
    out: &mut [u8],
    text: &[u8],
    codes: &[u32],
    runs: &[u32],
    tables: &[u8],
    n: u16,
    x: Refusal,
) -> usize
    requires told_room_in_bounds { told_room ≤ length out.old }
    requires spellable { Spellable tables.now text.now codes.now runs.now n x }
    ensures by_index { (xs : List ℕ) × Spelled (tables_of tables.now) text.now codes.now runs.now n x xs ×
        Wrote out.old 0 (refusal_line x ++ xs) out.new result }
    ensures upper_bound { result ≤ told_room }
{
    let a = report::refusal_line(out, 0, x);
    spell(out, a, text, codes, runs, tables, n, x)
}

// A refused timetable; a refusal of the tables goes before.
fn refuse_text(out: &mut [u8], tables: &[u8], x: Refusal) -> usize
    requires { told_room ≤ length out.old }
    ensures wrote { Wrote out.old 0 (refusal_line (before (judged_tables tables.now) x)) out.new result }
    ensures upper_bound { result ≤ told_room }
{
    match tables::judge(tables) {
        Err(y) => report::refusal_line(out, 0, y),
        Ok(_) => report::refusal_line(out, 0, x),
    }
}

// The timetable text is read into the two rooms, and the tables are checked against it. A refusal is told; of accepted tables nothing is. `Ok` has
// how many stops and runs the timetable has; `Err` how many bytes tell why the tables are not accepted.
pub fn admit(
    text: &[u8],
    tables: &[u8],
    runs: &mut [u32],
    codes: &mut [u32],
    work: &mut [u16],
    out: &mut [u8],
) -> Result<Counts, usize>
    requires { told_room ≤ length out.old }
    ensures admit_of { AdmitOf text.now tables.now (length runs.old) (length codes.old) (length work.old)
        out.old out.new result }
    ensures admit_short { AdmitShort result }
    ensures runs_after { runs.new ≡ runs_of (read_text text.now (length runs.old) (length codes.old))
        (length runs.old) }
    ensures codes_after { codes.new ≡ codes_of (read_text text.now (length runs.old) (length codes.old))
        (length codes.old) }
    ensures work_after { work.new ≡ zeros work.old }
{
    let counts = match reader::read(text, runs, codes) {
        Ok(counts) => counts,
        Err(x) => {
            loops::zero(work);
            return Err(refuse_text(out, tables, x));
        }
    };
    let given = Given {
        stops: counts.stops,
        runs: counts.runs,
    };
    if let Err(x) = verdict::check(tables, given, runs, work) {
        return Err(refuse(out, text, codes, runs, tables, counts.stops as u16, x));
    }
    Ok(counts)
}

// All that is told of a check.
pub fn checked(text: &[u8], tables: &[u8], out: &mut [u8]) -> usize
    requires { told_room ≤ length out.old }
    ensures by_index { (xs : List ℕ) × CheckTold text.now tables.now runs_room codes_room work_room xs ×
        Wrote out.old 0 xs out.new result }
    ensures upper_bound { result ≤ told_room }
{
    let mut runs = [0u32; Run::ROOM];
    let mut codes = [0u32; Stop::CODES_ROOM];
    let mut work = [0u16; both::ROOM];
    match admit(text, tables, &mut runs, &mut codes, &mut work, out) {
        Err(n) => n,
        Ok(_) => report::accepted_line(out, 0),
    }
}

// ---- The build.

// The tables of the timetable text, and what is told of them; `Err` has how many bytes tell why none were made. Not inlined: in `main` the branches of the
// builder's scan come to lie across lines of 32 bytes, and on processors that mind it a build takes a quarter longer (docs/LOOK-BACK.md).
#[inline(never)]
pub fn built(text: &[u8], tables: &mut [u8], out: &mut [u8]) -> Result<Made, usize>
    requires { told_room ≤ length out.old }
    ensures build_told { BuildTold text.now (length tables.old) tables.new out.old out.new result }
    ensures made_short { MadeShort (length tables.old) result }
{
    let mut runs = [0u32; Run::ROOM];
    let mut codes = [0u32; Stop::CODES_ROOM];
    let counts = match reader::read(text, &mut runs, &mut codes) {
        Ok(counts) => counts,
        Err(x) => {
            loops::zero(tables);
            return Err(report::refusal_line(out, 0, x));
        }
    };
    let mut work = [0u16; Work::ROOM];
    let given = Given {
        stops: counts.stops,
        runs: counts.runs,
    };
    match builder::build(given, &runs, tables, &mut work) {
        Err(x) => Err(report::refusal_line(out, 0, x)),
        Ok(built) => {
            let told = report::written_line(
                out,
                0,
                counts.stops,
                counts.runs,
                built.labels,
                built.length,
            );
            Ok(Made {
                tables: built.length as usize,
                told,
            })
        }
    }
}
