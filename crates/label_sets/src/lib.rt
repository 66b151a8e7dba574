// The label sets of good tables: where each of them starts, written down once in a lent room; a label looked up in its set by its hub and one
// of its minutes; and the two labels that meet at a label's pivot.
#![tactic(auto)]

ghost use Rattle.std.specs.Prelude.{◌≡◌, ℕ, ◌*◌, ◌≤◌, ◌<◌, length, get_or};
ghost use Rattle.loops.specs.First.{FirstAt};
ghost use Rattle.loops.specs.Tells.{Tells};
ghost use Rattle.kinds.specs.Limits.{no_pivot};
ghost use Rattle.journeys.specs.Tables.{Side};
ghost use Rattle.tables.specs.File.{set_of, start_of, tables_of, labels_of};
ghost use Rattle.tables.specs.Good.{GoodFile};
ghost use Rattle.label_sets.specs.Starts.{starts_room};
ghost use Rattle.label_sets.specs.Seek.{PastLabel, Past, AtLabel};
ghost use Rattle.label_sets.specs.Sets.{SetAt, SoughtIn, SoughtAs, SpanIn, PartedAs};

use kinds::{Label, Stop};
use tables::File;

// A label by its ends, its minutes and its pivot (Label::NO_PIVOT for none). A pair of labels that meet at a stop is one too, with that
// stop for its pivot.
#[derive(Clone, Copy)]
pub struct Span {
    pub from: u16,
    pub to: u16,
    pub dep: u16,
    pub arr: u16,
    pub pivot: u16,
}

// By which of its minutes a label is looked for.
#[derive(Clone, Copy)]
pub enum Moment {
    Leaving(u16),
    Arriving(u16),
}

// The two labels that meet at a pivot: the first arrives at `mid`, the second leaves at `start`; and their pivots.
#[derive(Clone, Copy)]
pub struct Meeting {
    pub mid: u16,
    pub first: u16,
    pub start: u16,
    pub second: u16,
}

// Tables with where each of their sets starts, and behind those the number of labels.
#[derive(Clone, Copy)]
pub struct LabelSets<'a> {
    pub file: File<'a>,
    pub starts: &'a [u16],
    ghost long: { 2 * file.stops < length starts.now },
    ghost are: { (set : ℕ) → set ≤ 2 * file.stops → get_or starts.now set 0 ≡ start_of file.bytes.now set },
}

// The starts of two sets a stop, and behind them the number of labels.
pub const STARTS: usize = 2 * Stop::MOST + 1;

pub fn starts_room() -> usize
    ensures value { result ≡ STARTS }
    ensures value_2 { result ≡ starts_room }
{
    STARTS
}

// Where a set starts, or the number of labels.
pub fn start_at(room: &[u16], set: usize) -> usize
    requires { set < length room.now }
    ensures { result ≡ get_or room.now set 0 }
{
    room[set] as usize
}

// Whether a label comes at or after the place, in its set, of one with this hub and this moment.
fn is_past(l: Label, hub: u16, m: Moment) -> bool
    ensures { Tells (PastLabel l hub m) result }
{
    // not `return hub < l.hub` where the hubs differ: that answer is computed with no branch, and `seek` takes nearly twice as long
    if hub < l.hub {
        return true;
    }
    if l.hub < hub {
        return false;
    }
    match m {
        Moment::Leaving(t) => t <= l.dep,
        Moment::Arriving(t) => t <= l.arr,
    }
}

// Whether a label has this hub and this moment.
fn is_at(l: Label, hub: u16, m: Moment) -> bool
    ensures { Tells (AtLabel l hub m) result }
{
    if l.hub != hub {
        return false;
    }
    match m {
        Moment::Leaving(t) => l.dep == t,
        Moment::Arriving(t) => l.arr == t,
    }
}

// Where a label with this hub and this moment stands or would stand, from `from` on and up to `to`. (No `Option`: it is a place in either case.)
#[tactic(auto, using(crate::specs::SeekLaws::seek_turns))]
pub fn seek(file: File<'_>, from: usize, to: usize, hub: u16, m: Moment) -> usize
    requires { (from ≤ to) × (to ≤ labels_of file.bytes.now) }
    ensures { FirstAt (Past (tables_of file.entry.bytes.now) hub m) from to result }
{
    for k in from..to {
        if is_past(file.label_at(k), hub, m) {
            return k;
        }
    }
    to
}

// The same in one set, whose bounds are given: those of its labels that come at or after the place are its last ones, so that the stretch
// in which the place lies can be halved at each turn.
#[tactic(auto, using(crate::specs::SeekLaws::place_turns))]
fn place_in(file: File<'_>, from: usize, to: usize, hub: u16, m: Moment) -> usize
    requires { (from ≤ to) × (to ≤ labels_of file.bytes.now) }
    ensures { (side : Side) (s : ℕ) → SetAt file.entry.bytes.now file.entry.stops side s from to →
        FirstAt (Past (tables_of file.entry.bytes.now) hub m) from to result }
{
    let mut low = from;
    let mut high = to;
    // not a counted loop: the stretch is halved
    while low < high {
        let mid = (low + high) / 2;
        let l = file.label_at(mid);
        if is_past(l, hub, m) {
            high = mid;
        } else {
            low = mid + 1;
        }
    }
    low
}

impl<'a> LabelSets<'a> {
    // Where a set starts, or the number of labels.
    pub fn start_at(self, set: usize) -> usize
        requires { set ≤ 2 * self.file.stops }
        ensures { result ≡ get_or self.entry.starts.now set 0 }
    {
        start_at(self.starts, set)
    }

    // The label with this hub and this moment in one set, by the set's number: the label's number and what it says.
    fn find_in(self, set: usize, hub: u16, m: Moment) -> Option<(u16, Label)>
        requires good { GoodFile self.file.bytes.now self.file.stops }
        requires set_lt { set < 2 * self.file.stops }
        ensures { (side : Side) (s : ℕ) → s < self.entry.file.stops → set ≡ set_of side s →
            SoughtIn (tables_of self.entry.file.bytes.now) side s hub m result }
    {
        let to = self.start_at(set + 1);
        let k = place_in(self.file, self.start_at(set), to, hub, m);
        if to <= k {
            return None;
        }
        let l = self.file.label_at(k);
        if !is_at(l, hub, m) {
            return None;
        }
        Some((k as u16, l))
    }

    // The label u to v with this moment, its number and what it says: an out-label of u with hub v, or an in-label of v with hub u.
    pub fn find(self, u: u16, v: u16, m: Moment) -> Option<(u16, Label)>
        requires good { GoodFile self.file.bytes.now self.file.stops }
        requires two_stops { (u < self.file.stops) × (v < self.file.stops) }
        ensures { SoughtAs (tables_of self.entry.file.bytes.now) u v m result }
    {
        if v < u {
            self.find_in(2 * (u as usize), v, m)
        } else {
            self.find_in(2 * (v as usize) + 1, u, m)
        }
    }

    // A label with a pivot is parted into the label to the pivot that leaves at the same minute and the label from the pivot that arrives at
    // the same minute, if they meet.
    pub fn halves(self, s: Span) -> Option<Meeting>
        requires good { GoodFile self.file.bytes.now self.file.stops }
        requires span_in { SpanIn self.file.stops s }
        requires with_pivot { s.pivot ≡ no_pivot → ⊥ }
        ensures { PartedAs (tables_of self.entry.file.bytes.now) s result }
    {
        let (_, x) = self.find(s.from, s.pivot, Moment::Leaving(s.dep))?;
        let (_, y) = self.find(s.pivot, s.to, Moment::Arriving(s.arr))?;
        if y.dep < x.arr {
            return None;
        }
        Some(Meeting {
            mid: x.arr,
            first: x.pivot,
            start: y.dep,
            second: y.pivot,
        })
    }
}
