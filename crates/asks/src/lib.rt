// Early, late and short over a tables file: one join serves the three.
#![tactic(auto)]

ghost use Rattle.std.specs.Prelude.{◌≡◌, ℕ, ◌+◌, ◌≤◌, Ok};
ghost use Rattle.kinds.specs.Kinds.{minute_of};
ghost use Rattle.kinds.specs.Limits.{most_stops};
ghost use Rattle.journeys.specs.Tables.{outs, ins, Sketch};
ghost use Rattle.tables.specs.File.{tables_of};
ghost use Rattle.asks.specs.Found.{FoundIn, fits_b, ahead_b, better_b, against, taken};
ghost use Rattle.asks.specs.Candidates.{FromOuts};
ghost use Rattle.tables.specs.Good.{GoodFile};
ghost use Rattle.asks.specs.declared.Wanted.TheVariants as wanted;
ghost use Rattle.asks.specs.Asks.{minute_read, minutes_read, ask_read, asked, Answers, GoodAsk};
ghost use Rattle.asks.specs.Join.{Sets, OutTurn, OutsDone, InsDone, in_turn};

use journeys::Criterion;
use kinds::{Label, Minute, Reason, Refusal, Stop};
use label_sets::Moment;
use tables::{Bounds, File};

// A journey by its time pair.
#[derive(Clone, Copy)]
pub struct Journey {
    pub dep: u16,
    pub arr: u16,
}

// An ask's minutes as they are given.
#[derive(Clone, Copy)]
pub enum Wanted {
    Early(u32),
    Late(u32),
    Short(u32, u32),
}

// An ask that is in order: two different stops and a criterion.
#[derive(Clone, Copy)]
pub struct Asked {
    pub from: u16,
    pub to: u16,
    pub criterion: Criterion,
}

// What the out-labels gave, and where among the in-labels the search for partners stands.
#[derive(Clone, Copy)]
struct Joined {
    best: Option<Journey>,
    next: usize,
}

#[tactic(auto, unfolding(crate::specs::Found::fits_b))]
fn fits(c: Criterion, d: u16, a: u16) -> bool
    ensures { result ≡ fits_b c d a }
{
    match c {
        Criterion::Early(t) => t <= d,
        Criterion::Late(t) => a <= t,
        Criterion::Short(t, t2) => t <= d && a <= t2,
    }
}

// Whether x comes before y, or they are the same and the tie is won.
#[tactic(auto, unfolding(crate::specs::Found::ahead_b))]
fn ahead(x: u32, y: u32, tie: bool) -> bool
    ensures { result ≡ ahead_b x y tie }
{
    x < y || (x == y && tie)
}

// Whether (d, a) is better than (e, b).
fn better(c: Criterion, d: u16, a: u16, e: u16, b: u16) -> bool
    ensures { result ≡ better_b c d a e b }
{
    match c {
        Criterion::Early(_) => ahead(u32::from(a), u32::from(b), e < d),
        Criterion::Late(_) => ahead(u32::from(e), u32::from(d), a < b),
        Criterion::Short(_, _) => ahead(
            u32::from(a) + u32::from(e),
            u32::from(b) + u32::from(d),
            d < e,
        ),
    }
}

// The better of a pair that fits and what was found.
fn rival(c: Criterion, d: u16, a: u16, best: Option<Journey>) -> Option<Journey>
    ensures { result ≡ against c d a best }
{
    match best {
        Some(j) if !better(c, d, a, j.dep, j.arr) => Some(j),
        _ => Some(Journey { dep: d, arr: a }),
    }
}

// One pair more.
#[tactic(auto, unfolding(crate::specs::Found::taken))]
fn take(c: Criterion, d: u16, a: u16, best: Option<Journey>) -> Option<Journey>
    ensures { result ≡ taken c d a best }
{
    if fits(c, d, a) {
        rival(c, d, a, best)
    } else {
        best
    }
}

// What out-label k, read as l, gives: its own pair where its hub is the stop asked for, else with its partner's arrival.
#[tactic(auto, using(label_sets::specs::SetsLaws::set_bounds))]
fn out_turn(
    file: File<'_>,
    q: Asked,
    in_to: usize,
    k: usize,
    l: Label,
    m: usize,
    best: Option<Journey>,
) -> Option<Journey>
    requires turn { (outFrom outTo inFrom : ℕ) × Sets file.bytes.now file.stops q.from q.to outFrom outTo inFrom in_to ×
        OutTurn file.bytes.now q.from outTo inFrom in_to k l m }
    requires found_in { FoundIn (FromOuts (tables_of file.bytes.now) q.from q.to k) q.criterion best }
    ensures { FoundIn (FromOuts (tables_of file.entry.bytes.now) q.from q.to (k + 1)) q.criterion result }
{
    if l.hub == q.to {
        return take(q.criterion, l.dep, l.arr, best);
    }
    if in_to <= m {
        return best;
    }
    let p = file.label_at(m);
    if p.hub == l.hub {
        return take(q.criterion, l.dep, p.arr, best);
    }
    best
}

// The out-labels of FROM in order; the place of the partners only moves forward.
#[tactic(auto, using(label_sets::specs::SetsLaws::set_bounds, crate::proofs::JoinLaws::outs_begin))]
fn over_outs(file: File<'_>, q: Asked, outs: Bounds, ins: Bounds) -> Joined
    requires { Sets file.bytes.now file.stops q.from q.to outs.start outs.end ins.start ins.end }
    ensures { OutsDone file.entry.bytes.now q.from q.to q.criterion outs.start outs.end ins.end result.best result.next outs.end }
{
    let mut best = None;
    let mut next = ins.start;
    for k in outs.start..outs.end {
        let l = file.label_at(k);
        next = label_sets::seek(file, next, ins.end, l.hub, Moment::Leaving(l.arr));
        best = out_turn(file, q, ins.end, k, l, next, best);
    }
    Joined { best, next }
}

// What in-label l gives: its own pair where its hub is u.
#[tactic(auto, unfolding(crate::specs::Join::in_turn))]
fn in_turn(c: Criterion, u: u16, l: Label, best: Option<Journey>) -> Option<Journey>
    ensures { result ≡ in_turn c u l best }
{
    if l.hub == u {
        take(c, l.dep, l.arr, best)
    } else {
        best
    }
}

// The in-labels of TO from the place of the partners on, until their hubs are past FROM. All are looked at, whatever the out-labels gave.
#[tactic(auto, using(label_sets::specs::SetsLaws::set_bounds, crate::proofs::JoinLaws::ins_stop))]
fn over_ins(
    file: File<'_>,
    q: Asked,
    from: usize,
    in_to: usize,
    best: Option<Journey>,
) -> Option<Journey>
    requires sets { (outFrom outTo inFrom : ℕ) × Sets file.bytes.now file.stops q.from q.to outFrom outTo inFrom in_to }
    requires ins_done { InsDone file.bytes.now q.from q.to q.criterion in_to best from }
    ensures { InsDone file.entry.bytes.now q.from q.to q.criterion in_to result in_to }
{
    let mut found = best;
    for k in from..in_to {
        let l = file.label_at(k);
        if q.from < l.hub {
            return found;
        }
        found = in_turn(q.criterion, q.from, l, found);
    }
    found
}

// The best sketch of a good ask.
#[tactic(auto, using(crate::proofs::JoinLaws::sets_of, crate::proofs::JoinLaws::ins_begin, crate::proofs::InsFoundLaws::ins_found))]
pub fn best_sketch(file: File<'_>, q: Asked) -> Option<Journey>
    requires good_file { GoodFile file.bytes.now file.stops }
    requires good_ask { GoodAsk file.stops q }
    ensures { FoundIn (Sketch (tables_of file.entry.bytes.now) q.from q.to) q.criterion result }
{
    let outs = file.outs_of(q.from);
    let ins = file.ins_of(q.to);
    let joined = over_outs(file, q, outs, ins);
    over_ins(file, q, joined.next, ins.end, joined.best)
}

// A minute of an ask, or 14.
fn minute(t: u32) -> Result<u16, Reason>
    ensures { result ≡ minute_read (minute_of t) }
{
    Ok(Minute::new(t).ok_or(Reason::MinuteHigh)?.0)
}

// The minutes judged: a criterion, or 14, then 15.
#[tactic(auto, unfolding(crate::specs::Asks::minutes_read))]
fn judge_minutes(w: Wanted) -> Result<Criterion, Reason>
    ensures { result ≡ minutes_read w }
{
    match w {
        Wanted::Early(t) => Ok(Criterion::Early(minute(t)?)),
        Wanted::Late(t) => Ok(Criterion::Late(minute(t)?)),
        Wanted::Short(t, t2) => {
            let first = minute(t)?;
            let last = minute(t2)?;
            if last < first {
                return Err(Reason::MinutesCrossed);
            }
            Ok(Criterion::Short(first, last))
        }
    }
}

// The stops and the minutes of an ask, among `n` stops: 12, 13, 14, 15.
#[tactic(auto, unfolding(crate::specs::Asks::ask_read))]
pub fn judge_ask(n: u16, from: u32, to: u32, w: Wanted) -> Result<Asked, Refusal>
    requires { n ≤ most_stops }
    ensures { result ≡ ask_read n from to w }
{
    let count = u32::from(n);
    let u = Stop::new(from, count).ok_or(Reason::StopHigh)?;
    let v = Stop::new(to, count).ok_or(Reason::StopHigh)?;
    if u.0 == v.0 {
        return Err(Refusal::new(Reason::SameStop, 0));
    }
    Ok(Asked {
        from: u.0,
        to: v.0,
        criterion: judge_minutes(w)?,
    })
}

// The answer to a good ask over good tables.
fn answer_good(file: File<'_>, q: Asked) -> Result<Journey, Refusal>
    requires good_file { GoodFile file.bytes.now file.stops }
    requires good_ask { GoodAsk file.stops q }
    ensures { Answers (tables_of file.entry.bytes.now) (Ok q) result }
{
    best_sketch(file, q).ok_or(Refusal::new(Reason::NoJourney, 0))
}

// Any ask over any bytes.
#[tactic(auto, unfolding(crate::specs::Asks::asked), using(crate::proofs::AskLaws::ask_good, tables::specs::GoodLaws::judged_good))]
pub fn answered(tables: &[u8], from: u32, to: u32, w: Wanted) -> Result<Journey, Refusal>
    ensures { Answers (tables_of tables.now) (asked tables.now from to w) result }
{
    let stops = tables::judge(tables)?;
    let q = judge_ask(stops, from, to, w)?;
    answer_good(
        File {
            bytes: tables,
            stops,
        },
        q,
    )
}

// The three asks by name: docs/PROMISES.md has them so, and `kiosk` calls them.
// early(u, v, t): departure at least t; least arrival, then latest departure.
pub fn early(tables: &[u8], from: u32, to: u32, t: u32) -> Result<Journey, Refusal>
    ensures { Answers (tables_of tables.now) (asked tables.now from to (wanted.Early t)) result }
{
    answered(tables, from, to, Wanted::Early(t))
}

// late(u, v, t): arrival at most t; latest departure, then least arrival.
pub fn late(tables: &[u8], from: u32, to: u32, t: u32) -> Result<Journey, Refusal>
    ensures { Answers (tables_of tables.now) (asked tables.now from to (wanted.Late t)) result }
{
    answered(tables, from, to, Wanted::Late(t))
}

// short(u, v, t, t2): departure at least t, arrival at most t2; least duration, then earliest departure.
pub fn short(tables: &[u8], from: u32, to: u32, t: u32, t2: u32) -> Result<Journey, Refusal>
    ensures { Answers (tables_of tables.now) (asked tables.now from to (wanted.Short t t2)) result }
{
    answered(tables, from, to, Wanted::Short(t, t2))
}
