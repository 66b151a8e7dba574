// Whether the labels of good tables are supported, label by label in the file's order.
#![tactic(auto)]

ghost use Rattle.std.specs.Prelude.{◌≡◌, ◌+◌, ◌*◌, ◌≤◌, ◌<◌, length};
ghost use Rattle.loops.specs.Fails.{FailsAt};
ghost use Rattle.loops.specs.Tells.{Tells};
ghost use Rattle.kinds.specs.Limits.{most_stops, most_labels};
ghost use Rattle.journeys.specs.Check.{SupportedAt};
ghost use Rattle.tables.specs.File.{tables_of, labels_of, start_of, end_of};
ghost use Rattle.timetable.specs.Slots.{most_slots, slots_of, service_of};
ghost use Rattle.label_sets.specs.Starts.{starts_room, Started};
ghost use Rattle.label_sets.specs.Sets.{SpanIn};
ghost use Rattle.both.specs.Both.{work_room, BothGood};
ghost use Rattle.support.specs.Marks.{Notes, MarkedWith, Marked, RideAmong};
ghost use Rattle.support.specs.Spans.{span_of, SpanAt, SpanSupported};

use journeys::Ride;
use kinds::Label;
use label_sets::{LabelSets, Moment, Span};
use tables::File;
use timetable::Day;

// ---- The rides, each slot noted at the label that its ride is.

// One slot, at the label with its ride's ends and minutes if there is one.
fn mark(file: File<'_>, ride: Ride, slot: usize, room: &mut [u16])
    requires started { Started file.bytes.now file.stops room.old }
    requires work_room_in_bounds { work_room ≤ length room.old }
    requires ends { (ride.from < file.stops) × (ride.to < file.stops) }
    requires slot_lt_most_slots { slot < most_slots }
    ensures { MarkedWith (tables_of file.entry.bytes.now) ride slot room.old room.new }
{
    let sets = LabelSets { file, starts: room };
    if let Some((k, l)) = sets.find(ride.from, ride.to, Moment::Leaving(ride.dep)) {
        if l.arr == ride.arr {
            room[label_sets::STARTS + (k as usize)] = slot as u16;
        }
    }
}

// The working room made ready: the starts of the sets, and behind them, for each label that a ride is, the slot of such a ride. What stands
// at another label is of no matter, so nothing is cleared: the slot is asked whether its ride is the label.
#[tactic(auto, using(timetable::proofs::SlotsLaws::read_ride, crate::specs::MarkLaws::ride_ends))]
pub fn mark_all(file: File<'_>, day: Day<'_>, room: &mut [u16])
    requires both_good { BothGood file.bytes.now file.stops day.given day.runs.now }
    requires work_room_in_bounds { work_room ≤ length room.old }
    ensures { Marked file.entry.bytes.now file.entry.stops day.entry.given day.entry.runs.now room.new }
{
    file.starts(room);
    for i in 0..day.slots() {
        if let Some(ride) = day.ride_at(i) {
            mark(file, ride, i, room);
        }
    }
}

// Whether a run has the ends and minutes of label k: the one at the slot that is noted there, if any.
fn has_run(day: Day<'_>, room: &[u16], k: usize, s: Span) -> bool
    requires k_in_bounds { starts_room + k < length room.now }
    requires notes { Notes (service_of day.given day.runs.now) (slots_of day.given) room.now k s }
    ensures { Tells (RideAmong (service_of day.entry.given day.entry.runs.now) (slots_of day.entry.given) s) result }
{
    let slot = room[label_sets::STARTS + k] as usize;
    let ride = Ride {
        from: s.from,
        to: s.to,
        dep: s.dep,
        arr: s.arr,
    };
    slot < day.slots() && day.ride_is(slot, ride)
}

// ---- The labels. Behind the starts of the sets stand the notes.

// With no pivot: a run with its ends and minutes. With a pivot: the two labels that meet there.
#[tactic(auto, using(timetable::proofs::SlotsLaws::service_slots, crate::specs::SpanLaws::by_ride))]
fn is_supported(sets: LabelSets<'_>, day: Day<'_>, k: usize, s: Span) -> bool
    requires marked { Marked sets.file.bytes.now sets.file.stops day.given day.runs.now sets.starts.now }
    requires k_lt_most_labels { k < most_labels }
    requires span_in { SpanIn sets.file.stops s }
    requires span_at { SpanAt (tables_of sets.file.bytes.now) k s }
    ensures { Tells (SpanSupported (service_of day.entry.given day.entry.runs.now) (tables_of sets.entry.file.bytes.now) s) result }
{
    if s.pivot == Label::NO_PIVOT {
        return has_run(day, sets.starts, k, s);
    }
    sets.halves(s).is_some()
}

// Label l of a set, by its ends.
#[tactic(auto, unfolding(crate::specs::Spans::span_of))]
fn span_of(set: usize, l: Label) -> Span
    requires { set < 2 * most_stops }
    ensures { result ≡ span_of set l }
{
    let owner = (set / 2) as u16;
    let (from, to) = if set % 2 == 0 {
        (owner, l.hub)
    } else {
        (l.hub, owner)
    };
    Span {
        from,
        to,
        dep: l.dep,
        arr: l.arr,
        pivot: l.pivot,
    }
}

// Whether label k, which stands in this set, is supported.
#[tactic(auto, using(crate::specs::SpanLaws::own_label))]
fn supported_at(sets: LabelSets<'_>, day: Day<'_>, set: usize, k: usize) -> bool
    requires marked { Marked sets.file.bytes.now sets.file.stops day.given day.runs.now sets.starts.now }
    requires set_bound { (set < 2 * sets.file.stops) × (start_of sets.file.bytes.now set ≤ k) × (k < end_of sets.file.bytes.now set) }
    ensures { Tells (SupportedAt (service_of day.entry.given day.entry.runs.now) (tables_of sets.entry.file.bytes.now) k) result }
{
    let l = sets.file.label_at(k);
    is_supported(sets, day, k, span_of(set, l))
}

// The first label of a set that is not supported, or the set's end.
#[tactic(auto, using(loops::specs::FailsLaws::fails_here, loops::specs::FailsLaws::fails_end, label_sets::specs::StartsLaws::end_read))]
fn first_of_set(sets: LabelSets<'_>, day: Day<'_>, set: usize) -> usize
    requires marked { Marked sets.file.bytes.now sets.file.stops day.given day.runs.now sets.starts.now }
    requires set_bound { set < 2 * sets.file.stops }
    ensures { FailsAt (SupportedAt (service_of day.entry.given day.entry.runs.now) (tables_of sets.entry.file.bytes.now))
        (start_of sets.entry.file.bytes.now set) (end_of sets.entry.file.bytes.now set) result }
{
    let end = sets.start_at(set + 1);
    for k in sets.start_at(set)..end {
        if !supported_at(sets, day, set, k) {
            return k;
        }
    }
    end
}

// The first label of all that is not supported, or the number of labels.
#[tactic(auto, using(crate::specs::SpanLaws::by_set))]
pub fn first_unsupported(sets: LabelSets<'_>, day: Day<'_>) -> usize
    requires { Marked sets.file.bytes.now sets.file.stops day.given day.runs.now sets.starts.now }
    ensures { FailsAt (SupportedAt (service_of day.entry.given day.entry.runs.now) (tables_of sets.entry.file.bytes.now))
        0 (labels_of sets.entry.file.bytes.now) result }
{
    let all = 2 * (sets.file.stops as usize);
    for set in 0..all {
        let k = first_of_set(sets, day, set);
        if k < sets.start_at(set + 1) {
            return k;
        }
    }
    sets.start_at(all)
}
