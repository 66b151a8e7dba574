// The timetable as given numbers: judged as they are, and read ride by ride. No other crate reads the list of runs.
#![tactic(auto)]

ghost use Rattle.std.specs.Prelude.{◌≡◌, ◌+◌, ◌*◌, ◌≤◌, ◌<◌, length};
ghost use Rattle.loops.specs.FirstOf.{first_of};
ghost use Rattle.loops.specs.Tells.{Tells};
ghost use Rattle.kinds.specs.Limits.{most_stops, most_runs, run_numbers};
ghost use Rattle.journeys.specs.Service.{RideAt};
ghost use Rattle.timetable.specs.Numbers.{run_at, read_run, refused_run, judged_runs, judged_of, GoodNumbers, GoodRunAt};
ghost use Rattle.timetable.specs.Slots.{most_slots, slots_of, slot_run, service_of, slot_at};

use journeys::Ride;
use kinds::{Reason, Refusal, Run, Stop};

// What is given beside the list of runs: how many stops and how many runs there are.
#[derive(Clone, Copy)]
pub struct Given {
    pub stops: u32,
    pub runs: u32,
}

// ---- The numbers judged.

// Run i, or the reason why it is refused.
#[tactic(auto, unfolding(crate::specs::Numbers::read_run))]
fn read_run(stops: u32, runs: &[u32], i: usize) -> Result<Run, Reason>
    requires stops_le_most_stops { stops ≤ most_stops }
    requires run_numbers_in_bounds { run_numbers * i + run_numbers ≤ length runs.now }
    ensures { result ≡ read_run stops runs.now i }
{
    let at = Run::NUMBERS * i;
    Run::new(
        stops,
        runs[at],
        runs[at + 1],
        runs[at + 2],
        runs[at + 3],
        runs[at + 4],
    )
}

// The runs in order; the first bad one decides.
#[tactic(auto, using(loops::specs::FirstOfLaws::first_of_none, loops::specs::FirstOfLaws::first_of_more, crate::proofs::NumbersLaws::run_refuses))]
fn judge_runs(stops: u32, runs: &[u32], count: usize) -> Result<(), Refusal>
    requires stops_le_most_stops { stops ≤ most_stops }
    requires count_le_most_runs { count ≤ most_runs }
    requires count_in_bounds { run_numbers * count ≤ length runs.now }
    ensures { result ≡ judged_runs (first_of (refused_run stops runs.now) count) }
{
    for i in 0..count {
        if let Err(reason) = read_run(stops, runs, i) {
            return Err(Refusal::new(reason, i as u32));
        }
    }
    Ok(())
}

// Given numbers, and working room of which so much is lent and so much is needed. Numbers beyond the runs' are not read.
#[tactic(auto, using(kinds::specs::KindsLaws::stop_count, kinds::specs::KindsLaws::run_count), unfolding(crate::specs::Numbers::judged_of))]
pub fn judge(given: Given, runs: &[u32], lent: usize, needed: usize) -> Result<(), Refusal>
    ensures { result ≡ judged_of given runs.now lent needed }
{
    if !Stop::is_count(given.stops) || !Run::is_count(given.runs) {
        return Err(Refusal::new(Reason::OverLimit, 0));
    }
    let count = given.runs as usize;
    if runs.len() < Run::NUMBERS * count || lent < needed {
        return Err(Refusal::new(Reason::RoomShort, 0));
    }
    judge_runs(given.stops, runs, count)
}

// ---- Good numbers read.

// The good numbers of a day: what is given beside the list of runs, and the list.
#[derive(Clone, Copy)]
pub struct Day<'a> {
    pub given: Given,
    pub runs: &'a [u32],
    ghost good: { GoodNumbers given runs.now },
}

// How many stops there are, in the width that stops have.
pub fn stop_count(given: Given) -> u16
    requires { given.stops ≤ most_stops }
    ensures { result ≡ given.stops }
{
    given.stops as u16
}

// How many slots there are.
#[tactic(auto, unfolding(crate::specs::Slots::slots_of))]
pub fn slots(given: Given) -> usize
    requires { given.runs ≤ most_runs }
    ensures value { result ≡ slots_of given }
    ensures upper_bound { result ≤ most_slots }
{
    given.runs as usize
}

// Run i.
pub fn run_at(runs: &[u32], i: usize) -> Run
    requires { GoodRunAt runs.now i }
    ensures { result ≡ run_at runs.now i }
{
    let at = Run::NUMBERS * i;
    Run {
        from: runs[at] as u16,
        to: runs[at + 1] as u16,
        dep: runs[at + 2] as u16,
        arr: runs[at + 3] as u16,
        trip: runs[at + 4] as u16,
    }
}

// The run that stands at a slot.
#[tactic(auto, unfolding(crate::specs::Slots::slot_run))]
pub fn slot_run(slot: usize) -> usize
    requires { slot < most_slots }
    ensures value { result ≡ slot_run slot }
    ensures upper_bound { result < most_runs }
{
    slot
}

impl<'a> Day<'a> {
    // How many stops there are.
    pub fn stops(self) -> u16
        ensures { result ≡ self.entry.given.stops }
    {
        stop_count(self.given)
    }

    // How many slots there are.
    pub fn slots(self) -> usize
        ensures value { result ≡ slots_of self.entry.given }
        ensures upper_bound { result ≤ most_slots }
    {
        slots(self.given)
    }

    // The ride at a slot; `None` where it is not in force.
    #[tactic(auto, using(crate::proofs::SlotsLaws::slots_few, crate::proofs::SlotsLaws::slot_run_at, crate::proofs::SlotsLaws::slot_is))]
    pub fn ride_at(self, slot: usize) -> Option<Ride>
        requires { slot < slots_of self.given }
        ensures { result ≡ slot_at (service_of self.entry.given self.entry.runs.now) slot }
    {
        let run = run_at(self.runs, slot_run(slot));
        Some(Ride {
            from: run.from,
            to: run.to,
            dep: run.dep,
            arr: run.arr,
        })
    }

    // Whether the ride at a slot is in force and is this one.
    pub fn ride_is(self, slot: usize, ride: Ride) -> bool
        requires { slot < slots_of self.given }
        ensures { Tells (RideAt (service_of self.entry.given self.entry.runs.now) slot ride.from ride.to ride.dep ride.arr) result }
    {
        self.ride_at(slot) == Some(ride)
    }
}
