// The check of tables from anywhere against a timetable's numbers.
#![tactic(auto)]

ghost use Rattle.std.specs.Prelude.{◌≡◌, ◌+◌, ◌*◌, ◌≤◌, ◌<◌, length, get_or};
ghost use Rattle.loops.specs.Zero.{zeros};
ghost use Rattle.loops.specs.Tells.{Tells};
ghost use Rattle.kinds.specs.Limits.{most_stops};
ghost use Rattle.journeys.specs.Tables.{outs, ins};
ghost use Rattle.tables.specs.File.{tables_of};
ghost use Rattle.timetable.specs.Slots.{service_of};
ghost use Rattle.label_sets.specs.Starts.{starts_room, Started};
ghost use Rattle.both.specs.Both.{work_room, BothGood};
ghost use Rattle.support.specs.Marks.{Marked};
ghost use Rattle.verdict.specs.Early.{Reached, Arrivals};
ghost use Rattle.verdict.specs.Minutes.{SameBefore, Cleared, minutes, near, far, both_room, hub_minutes, relaxed, sooner_of, WithIn};
ghost use Rattle.verdict.specs.Gaps.{NoGapOf, RideIn, Compared, GapIn};
ghost use Rattle.verdict.specs.Verdict.{CheckedAs, Checked};

use journeys::Ride;
use kinds::{Label, Minute, Reason, Refusal, Stop};
use label_sets::LabelSets;
use tables::{Bounds, File};
use timetable::{Day, Given};

// The soonest one can be at a stop, by the minutes at which the hubs are reached from a ride's start, and from its end.
#[derive(Clone, Copy)]
struct Soonest {
    near: u16,
    far: u16,
}

// A set of labels: its first label, and where it ends.
fn set_at(sets: LabelSets<'_>, set: usize) -> Bounds
    requires { set < 2 * sets.file.stops }
    ensures { (result.end ≡ get_or sets.entry.starts.now (set + 1) 0) × (result.start ≡ get_or sets.entry.starts.now set 0) }
{
    Bounds {
        start: sets.start_at(set),
        end: sets.start_at(set + 1),
    }
}

// ---- The minutes at which the hubs are reached. They stand in the working room behind the starts of the sets: those of leaving a ride's
// start, and behind them those of leaving its end. Only the numbers of the day's n stops are used, so a ride costs no more to begin.

const NEAR: usize = label_sets::STARTS;

const FAR: usize = NEAR + Stop::MOST;

// No hub reached yet.
fn clear(room: &mut [u16], at: usize, n: u16)
    requires { at + n ≤ length room.old }
    ensures { Cleared at (at + n) room.old room.new }
{
    let end = at + (n as usize);
    room[at..end].fill(Minute::UNREACHED);
}

// One label more, for one who can be where it leaves at m: it counts where it leaves then or later, and the sooner arrival stays.
#[tactic(auto, unfolding(crate::specs::Minutes::sooner_of))]
fn sooner(e: u16, m: u16, l: Label) -> u16
    ensures { result ≡ sooner_of e m l }
{
    if l.dep < m { e } else { e.min(l.arr) }
}

// An out-label more of a stop that one leaves at d.
#[tactic(auto, unfolding(crate::specs::Minutes::relaxed))]
fn relax(room: &mut [u16], at: usize, d: u16, l: Label)
    requires { at + l.hub < length room.old }
    ensures { room.new ≡ relaxed at d l room.old }
{
    if d <= l.dep {
        let hub = at + (l.hub as usize);
        room[hub] = sooner(room[hub], d, l);
    }
}

// For each hub the least minute at which one can be there by an out-label of u that leaves at or after d; and u itself at d.
fn reach(file: File<'_>, u: u16, d: u16, at: usize, room: &mut [u16])
    requires started { Started file.bytes.now file.stops room.old }
    requires u_lt_n { u < file.stops }
    requires starts_room_le_at { (starts_room ≤ at) × (at + file.stops ≤ length room.old) }
    ensures reached { Reached (tables_of file.entry.bytes.now) u d ((tables_of file.entry.bytes.now).end outs u) (minutes room.new at) }
    ensures same_before { SameBefore at room.old room.new }
{
    let own = u as usize;
    let outs = set_at(LabelSets { file, starts: room }, 2 * own);
    clear(room, at, file.stops);
    room[at + own] = d;
    for k in outs.start..outs.end {
        let l = file.label_at(k);
        relax(room, at, d, l);
    }
}

// From both ends of a ride: leaving its start with it, and leaving its end when it arrives.
fn reach_both(file: File<'_>, ride: Ride, room: &mut [u16])
    requires started { Started file.bytes.now file.stops room.old }
    requires ride_in { RideIn file.stops ride }
    requires both_room_in_bounds { both_room ≤ length room.old }
    ensures { Compared file.entry.bytes.now file.entry.stops room.new ride }
{
    reach(file, ride.from, ride.dep, NEAR, room);
    reach(file, ride.to, ride.arr, FAR, room);
}

// ---- The arrivals at a stop.

// When a stop is reached as a hub.
fn hub_minutes(room: &[u16], h: u16) -> Soonest
    requires { (h < most_stops) × (both_room ≤ length room.now) }
    ensures { result ≡ hub_minutes room.now h }
{
    let hub = h as usize;
    Soonest {
        near: room[NEAR + hub],
        far: room[FAR + hub],
    }
}

// One in-label more, whose hub is reached at m.
fn with_in(s: Soonest, m: Soonest, l: Label) -> Soonest
    ensures { WithIn s m l result }
{
    Soonest {
        near: sooner(s.near, m.near, l),
        far: sooner(s.far, m.far, l),
    }
}

// One pass over the in-labels of v.
fn arrivals(file: File<'_>, room: &[u16], v: u16) -> Soonest
    requires started { Started file.bytes.now file.stops room.now }
    requires v_lt_n { v < file.stops }
    requires both_room_in_bounds { both_room ≤ length room.now }
    ensures { Arrivals (tables_of file.entry.bytes.now) (near room.now) (far room.now) v
        ((tables_of file.entry.bytes.now).end ins v) result }
{
    let ins = set_at(LabelSets { file, starts: room }, 2 * (v as usize) + 1);
    let mut s = hub_minutes(room, v);
    for k in ins.start..ins.end {
        let l = file.label_at(k);
        s = with_in(s, hub_minutes(room, l.hub), l);
    }
    s
}

// ---- The gaps.

// Whether there is no gap at a ride and a stop.
fn no_gap(file: File<'_>, room: &[u16], ride: Ride, v: u16) -> bool
    requires compared { Compared file.bytes.now file.stops room.now ride }
    requires v_lt_n { v < file.stops }
    ensures { Tells (NoGapOf (tables_of file.entry.bytes.now) ride v) result }
{
    if v == ride.from {
        return true;
    }
    let soonest = arrivals(file, room, v);
    if v == ride.to {
        soonest.near <= ride.arr
    } else {
        soonest.near <= soonest.far
    }
}

// The runs by number and, within a run, the stops by number. The first gap, its slot and its stop, ends the search; `None` is for no gap.
fn first_gap(file: File<'_>, day: Day<'_>, room: &mut [u16]) -> Option<(usize, u16)>
    requires both_good { BothGood file.bytes.now file.stops day.given day.runs.now }
    requires started { Started file.bytes.now file.stops room.old }
    requires work_room_in_bounds { work_room ≤ length room.old }
    ensures { GapIn (service_of day.entry.given day.entry.runs.now) (tables_of file.entry.bytes.now) result }
{
    let mut gap = None;
    'search: for i in 0..day.slots() {
        let Some(ride) = day.ride_at(i) else {
            continue;
        };
        reach_both(file, ride, room);
        for v in 0..file.stops {
            if !no_gap(file, room, ride, v) {
                gap = Some((i, v));
                break 'search;
            }
        }
    }
    gap
}

// ---- The check.

// Labels first, then runs and stops. What the labels left in the room is then written over.
fn compare(file: File<'_>, day: Day<'_>, room: &mut [u16]) -> Result<(), Refusal>
    requires { Marked file.bytes.now file.stops day.given day.runs.now room.old }
    ensures { CheckedAs (service_of day.entry.given day.entry.runs.now) (tables_of file.entry.bytes.now) result }
{
    let sets = LabelSets { file, starts: room };
    let k = support::first_unsupported(sets, day);
    if k < sets.start_at(2 * (file.stops as usize)) {
        return Err(Refusal::new(Reason::Unsupported, k as u32));
    }
    if let Some((i, v)) = first_gap(file, day, room) {
        return Err(Refusal {
            reason: Reason::Gap,
            place: timetable::slot_run(i) as u32,
            stop: v as u32,
        });
    }
    Ok(())
}

// The answer; the working room is left as it was used.
fn answer(tables: &[u8], given: Given, runs: &[u32], work: &mut [u16]) -> Result<(), Refusal>
    ensures { Checked tables.now given runs.now (length work.old) result }
{
    let stops = both::judge(tables, given, runs, work.len())?;
    let file = File {
        bytes: tables,
        stops,
    };
    let day = Day { given, runs };
    support::mark_all(file, day, work);
    compare(file, day, work)
}

// The check of tables from anywhere against a timetable's numbers: they are accepted, or refused.
pub fn check(tables: &[u8], given: Given, runs: &[u32], work: &mut [u16]) -> Result<(), Refusal>
    ensures checked { Checked tables.now given runs.now (length work.old) result }
    ensures work_after { work.new ≡ zeros work.old }
{
    let verdict = answer(tables, given, runs, work);
    loops::zero(work);
    verdict
}
