// The rides of a label and of an answer, opened into a lent list.
#![tactic(auto)]

ghost use Rattle.std.specs.Prelude.{◌≡◌, ◌≤◌, ◌<◌, length};
ghost use Rattle.loops.specs.Tells.{Tells};
ghost use Rattle.kinds.specs.Limits.{no_pivot};
ghost use Rattle.journeys.specs.Tables.{Tables};
ghost use Rattle.journeys.specs.Rides.{Chosen};
ghost use Rattle.tables.specs.File.{tables_of, labels_of};
ghost use Rattle.tables.specs.Good.{GoodFile};
ghost use Rattle.timetable.specs.Slots.{service_of};
ghost use Rattle.departures.specs.Departures.{ByDeparture};
ghost use Rattle.label_sets.specs.Starts.{starts_room};
ghost use Rattle.label_sets.specs.Sets.{SpanIn, PartedAs};
ghost use Rattle.opening.specs.Opening.{behind_starts, Ground, SpanOpens, OpenedAs, OpenedInto};
ghost use Rattle.opening.specs.Choosing.{Joins, HubAs, WayAs};

use journeys::Ride;
use kinds::Label;
use label_sets::{LabelSets, Meeting, Moment, Span};
use tables::File;
use timetable::Day;

// An answer: its stops and its time pair.
#[derive(Clone, Copy)]
pub struct Answer {
    pub from: u16,
    pub to: u16,
    pub dep: u16,
    pub arr: u16,
}

// With no pivot: the lowest-numbered ride with the label's ends and minutes, its run listed where there is room; or `None`, the ride is missing.
fn open_run(day: &Day<'_>, room: &[u16], s: Span, list: &mut [u32]) -> Option<usize>
    requires starts_room_in_bounds { starts_room ≤ length room.now }
    requires by_departure { ByDeparture day.now.given day.now.runs.now (behind_starts room.now) }
    requires pivot_value { s.pivot ≡ no_pivot }
    ensures { (T : Tables) →
        OpenedAs (SpanOpens (service_of day.now.given day.now.runs.now) T s) list.old list.new result }
{
    let index = &room[label_sets::STARTS..];
    let ride = Ride {
        from: s.from,
        to: s.to,
        dep: s.dep,
        arr: s.arr,
    };
    let slot = departures::find(*day, index, ride);
    if day.slots() <= slot {
        return None;
    }
    if !list.is_empty() {
        list[0] = timetable::slot_run(slot) as u32;
    }
    Some(1)
}

// The two labels that meet at a label's pivot. Not inlined: what it copies of the sets is off the stack again before a call of `open_span` is nested.
#[inline(never)]
fn halves(sets: &LabelSets<'_>, s: &Span) -> Option<Meeting>
    requires good { GoodFile sets.now.file.bytes.now sets.now.file.stops }
    requires span_in { SpanIn sets.now.file.stops s.now }
    requires with_pivot { s.now.pivot ≡ no_pivot → ⊥ }
    ensures { PartedAs (tables_of sets.now.file.bytes.now) s.now result }
{
    sets.halves(*s)
}

// With a pivot: the two labels that meet there, each opened in turn. The second label's rides go straight into the part of the list that
// the first label's left. Where the list is full the count goes on: a ride that is missing is found in any case. `None` where a ride or a label is
// missing, or the two labels don't meet. Sets, day and span are borrowed, not copied: up to 2,879 calls are nested, and each takes 96 bytes of stack (copies
// and all inlined, 432).
fn open_span(sets: &LabelSets<'_>, day: &Day<'_>, s: &Span, list: &mut [u32]) -> Option<usize>
    requires ground { Ground sets.now.file.bytes.now sets.now.file.stops sets.now.starts.now day.now.given day.now.runs.now }
    requires span_in { SpanIn sets.now.file.stops s.now }
    ensures { OpenedAs (SpanOpens (service_of day.now.given day.now.runs.now) (tables_of sets.now.file.bytes.now) s.now)
        list.old list.new result }
{
    if s.pivot == Label::NO_PIVOT {
        return open_run(day, sets.starts, *s, list);
    }
    let h = halves(sets, s)?;
    let first = Span {
        to: s.pivot,
        arr: h.mid,
        pivot: h.first,
        ..*s
    };
    let k = open_span(sets, day, &first, list)?;
    let start = k.min(list.len());
    let second = Span {
        from: s.pivot,
        dep: h.start,
        pivot: h.second,
        ..*s
    };
    let m = open_span(sets, day, &second, &mut list[start..])?;
    Some(k + m)
}

// Whether out-label l leaves at d, and the in-label at this place has its hub, arrives at a, and leaves when l has arrived.
fn joins(file: File<'_>, l: Label, d: u16, a: u16, place: usize, to: usize) -> bool
    requires to_bound { to ≤ labels_of file.bytes.now }
    ensures { Tells (Joins (tables_of file.entry.bytes.now) l d a place to) result }
{
    if l.dep != d || to <= place {
        return false;
    }
    let m = file.label_at(place);
    m.hub == l.hub && m.arr == a && l.arr <= m.dep
}

// The lowest hub at which an out-label of `from` that leaves at `dep` meets an in-label of `to` that arrives at `arr`; or `None`, there is no such
// hub. Hubs never fall in either set, so the place among the in-labels only moves forward.
#[tactic(auto, using(label_sets::specs::SetsLaws::set_bounds))]
fn lowest_hub(sets: LabelSets<'_>, answer: Answer) -> Option<u16>
    requires good { GoodFile sets.file.bytes.now sets.file.stops }
    requires two_stops { (answer.from < sets.file.stops) × (answer.to < sets.file.stops) }
    ensures { HubAs (tables_of sets.entry.file.bytes.now) answer.from answer.to answer.dep answer.arr result }
{
    let outs = 2 * (answer.from as usize);
    let out_from = sets.start_at(outs);
    let out_to = sets.start_at(outs + 1);
    let ins = 2 * (answer.to as usize) + 1;
    let in_from = sets.start_at(ins);
    let in_to = sets.start_at(ins + 1);
    let mut place = in_from;
    for k in out_from..out_to {
        let l = sets.file.label_at(k);
        place = label_sets::seek(sets.file, place, in_to, l.hub, Moment::Arriving(answer.arr));
        if joins(sets.file, l, answer.dep, answer.arr, place, in_to) {
            return Some(l.hub);
        }
    }
    None
}

// The stop where the answer is taken apart: the pivot of a single label (Label::NO_PIVOT for none), or the hub of a joined pair. A single
// label goes before a joined pair, and then the lowest hub number. `None` where no sketch has the pair.
fn way_of(sets: LabelSets<'_>, answer: Answer) -> Option<u16>
    requires good { GoodFile sets.file.bytes.now sets.file.stops }
    requires two_stops { (answer.from < sets.file.stops) × (answer.to < sets.file.stops) }
    ensures { WayAs (tables_of sets.entry.file.bytes.now) answer.from answer.to answer.dep answer.arr result }
{
    if let Some((_, l)) = sets.find(answer.from, answer.to, Moment::Leaving(answer.dep)) {
        if l.arr == answer.arr {
            return Some(l.pivot);
        }
    }
    lowest_hub(sets, answer)
}

// The rides of the answer, opened into the list: how many there are, or `None`, one is missing.
fn open_chosen(sets: LabelSets<'_>, day: Day<'_>, answer: Answer, list: &mut [u32]) -> Option<usize>
    requires ground { Ground sets.file.bytes.now sets.file.stops sets.starts.now day.given day.runs.now }
    requires two_stops { (answer.from < sets.file.stops) × (answer.to < sets.file.stops) }
    ensures { OpenedAs (Chosen (service_of day.entry.given day.entry.runs.now) (tables_of sets.entry.file.bytes.now)
        answer.from answer.to answer.dep answer.arr) list.old list.new result }
{
    let pivot = way_of(sets, answer)?;
    let s = Span {
        from: answer.from,
        to: answer.to,
        dep: answer.dep,
        arr: answer.arr,
        pivot,
    };
    open_span(&sets, &day, &s, list)
}

// The same; and where one is missing nothing is listed. The starts of the sets are the front of the working room, which is given whole: behind
// them stand the rides by departure.
pub fn open_answer(
    sets: LabelSets<'_>,
    day: Day<'_>,
    answer: Answer,
    list: &mut [u32],
) -> Option<usize>
    requires ground { Ground sets.file.bytes.now sets.file.stops sets.starts.now day.given day.runs.now }
    requires two_stops { (answer.from < sets.file.stops) × (answer.to < sets.file.stops) }
    ensures { OpenedInto (Chosen (service_of day.entry.given day.entry.runs.now) (tables_of sets.entry.file.bytes.now)
        answer.from answer.to answer.dep answer.arr) list.old list.new result }
{
    let opened = open_chosen(sets, day, answer, list);
    if opened.is_none() {
        loops::zero(list);
    }
    opened
}
