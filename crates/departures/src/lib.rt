// The rides by departure, in buckets: for each bucket the first of its slots, and for each slot the next one of the same bucket. So a ride is
// looked up among those only that leave when it does. The rides of a journey leave one after the other, so the look-ups of one ask together
// meet each slot at most once.
#![tactic(auto)]

ghost use Rattle.std.specs.Prelude.{◌≡◌, ◌+◌, ◌≤◌, ◌<◌, length, get_or};
ghost use Rattle.loops.specs.First.{FirstAt};
ghost use Rattle.journeys.specs.Service.{RideAt};
ghost use Rattle.timetable.specs.Slots.{slots_of, service_of};
ghost use Rattle.departures.specs.Departures.{buckets, bucket_of, Indexed, SameFrom, ByDeparture};
ghost use Rattle.departures.specs.Turns.{with_slot};

use journeys::Ride;
use kinds::Minute;
use timetable::Day;

// A bucket a minute.
const BUCKETS: usize = (Minute::LAST as usize) + 1;

// Where to look for what leaves at this minute.
#[tactic(auto, unfolding(crate::specs::Departures::bucket_of))]
fn bucket_of(dep: u16) -> usize
    ensures value { result ≡ bucket_of dep }
    ensures upper_bound { result < buckets }
{
    (dep as usize) % BUCKETS
}

// One slot more. If its ride is in force, it goes before those of its bucket.
#[tactic(auto, using(crate::specs::DeparturesLaws::slot_added))]
fn add(day: Day<'_>, i: usize, index: &mut [u16])
    requires i_bound { i < slots_of day.given }
    requires i_in_bounds { buckets + i < length index.old }
    ensures { index.new ≡ with_slot (service_of day.entry.given day.entry.runs.now) i index.old }
{
    match day.ride_at(i) {
        Some(ride) => {
            let h = bucket_of(ride.dep);
            index[BUCKETS + i] = index[h];
            index[h] = i as u16;
        }
        None => index[BUCKETS + i] = day.slots() as u16,
    }
}

// The slots of a day, from the last to the first.
#[tactic(auto, using(timetable::proofs::SlotsLaws::service_slots, crate::specs::DeparturesLaws::index_all))]
pub fn index(day: Day<'_>, index: &mut [u16])
    requires { buckets + slots_of day.given ≤ length index.old }
    ensures indexed { Indexed (service_of day.entry.given day.entry.runs.now) (λ p. get_or index.new p 0) }
    ensures same_from { SameFrom (buckets + slots_of day.entry.given) index.old index.new }
{
    let count = day.slots();
    // no slot yet in any bucket
    index[..BUCKETS].fill(count as u16);
    for k in (0..count).rev() {
        add(day, k, index);
    }
}

// The lowest slot whose ride is this one, or the number of slots.
#[tactic(auto, using(timetable::proofs::SlotsLaws::service_slots))]
pub fn find(day: Day<'_>, index: &[u16], ride: Ride) -> usize
    requires { ByDeparture day.given day.runs.now index.now }
    ensures { FirstAt (λ i. RideAt (service_of day.entry.given day.entry.runs.now) i ride.from ride.to ride.dep ride.arr) 0 (slots_of day.entry.given) result }
{
    let none = day.slots();
    let mut i = index[bucket_of(ride.dep)] as usize;
    // not a counted loop: from slot to slot of the bucket
    while i < none {
        if day.ride_is(i, ride) {
            return i;
        }
        i = index[BUCKETS + i] as usize;
    }
    i
}
