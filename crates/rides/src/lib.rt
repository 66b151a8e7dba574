// Early, late and short with rides: the answer over the tables, and the run numbers of its rides in the lent list.
#![tactic(auto)]

ghost use Rattle.std.specs.Prelude.{◌≡◌, ◌≤◌, length};
ghost use Rattle.loops.specs.Zero.{zeros};
ghost use Rattle.journeys.specs.Criteria.{Best};
ghost use Rattle.journeys.specs.Tables.{Sketch};
ghost use Rattle.tables.specs.File.{tables_of};
ghost use Rattle.timetable.specs.Slots.{service_of};
ghost use Rattle.asks.specs.declared.Wanted.TheVariants as wanted;
ghost use Rattle.asks.specs.Asks.{GoodAsk};
ghost use Rattle.both.specs.Both.{work_room, BothGood};
ghost use Rattle.opening.specs.Opening.{Ground};
ghost use Rattle.rides.specs.Prepared.{Beside};
ghost use Rattle.rides.specs.Lists.{rides_asked, Lists};

use asks::{Asked, Journey, Wanted};
use kinds::{Reason, Refusal};
use label_sets::LabelSets;
use opening::Answer;
use tables::File;
use timetable::{Day, Given};

// A journey by its time pair, and how many rides it has.
#[derive(Clone, Copy)]
pub struct Listed {
    pub dep: u16,
    pub arr: u16,
    pub rides: u32,
}

// 9, 10, 11; the timetable's 8, 17, 5, 6, 7; 21; then 12, 13, 14, 15.
#[tactic(auto, unfolding(crate::specs::Lists::rides_asked))]
fn judge(
    tables: &[u8],
    given: Given,
    runs: &[u32],
    lent: usize,
    from: u32,
    to: u32,
    w: Wanted,
) -> Result<Asked, Refusal>
    ensures { result ≡ rides_asked tables.now given runs.now lent from to w }
{
    let n = both::judge(tables, given, runs, lent)?;
    asks::judge_ask(n, from, to, w)
}

// The rides of the best pair: 18 where one is missing, then 17 where the list is too short for them.
fn list_pair(
    sets: LabelSets<'_>,
    day: Day<'_>,
    q: Asked,
    j: Journey,
    list: &mut [u32],
) -> Result<Listed, Refusal>
    requires ground { Ground sets.file.bytes.now sets.file.stops sets.starts.now day.given day.runs.now }
    requires good_ask { GoodAsk sets.file.stops q }
    requires best { Best (Sketch (tables_of sets.file.bytes.now) q.from q.to) q.criterion j.dep j.arr }
    requires list_value { list.old ≡ zeros list.old }
    ensures { Lists (service_of day.entry.given day.entry.runs.now) (tables_of sets.entry.file.bytes.now) (Ok q)
        list.old list.new result }
{
    let answer = Answer {
        from: q.from,
        to: q.to,
        dep: j.dep,
        arr: j.arr,
    };
    let opened = opening::open_answer(sets, day, answer, list);
    let k = opened.ok_or(Reason::RidesMissing)?;
    if list.len() < k {
        loops::zero(list);
        return Err(Reason::RoomShort.into());
    }
    Ok(Listed {
        dep: j.dep,
        arr: j.arr,
        rides: k as u32,
    })
}

// The working room made ready: the starts of the sets, and behind them the rides by departure.
fn prepare(file: File<'_>, day: Day<'_>, work: &mut [u16])
    requires both_good { BothGood file.bytes.now file.stops day.given day.runs.now }
    requires work_room_in_bounds { work_room ≤ length work.old }
    ensures ground { Ground file.entry.bytes.now file.entry.stops work.new day.entry.given day.entry.runs.now }
    ensures beside { Beside file.entry.stops day.entry.given work.old work.new }
{
    file.starts(work);
    departures::index(day, &mut work[label_sets::STARTS..]);
}

// A good ask over good tables and good numbers, the working room made ready for it: 16, or the rides of the best pair.
fn list_best(
    file: File<'_>,
    day: Day<'_>,
    q: Asked,
    list: &mut [u32],
    work: &mut [u16],
) -> Result<Listed, Refusal>
    requires both_good { BothGood file.bytes.now file.stops day.given day.runs.now }
    requires work_room_in_bounds { work_room ≤ length work.old }
    requires good_ask { GoodAsk file.stops q }
    requires list_value { list.old ≡ zeros list.old }
    ensures { Lists (service_of day.entry.given day.entry.runs.now) (tables_of file.entry.bytes.now) (Ok q)
        list.old list.new result }
{
    prepare(file, day, work);
    let sets = LabelSets { file, starts: work };
    let j = asks::best_sketch(file, q).ok_or(Reason::NoJourney)?;
    list_pair(sets, day, q, j, list)
}

// Any ask with rides, over any bytes and numbers, into a list that is all zero.
fn list_asked(
    tables: &[u8],
    given: Given,
    runs: &[u32],
    from: u32,
    to: u32,
    w: Wanted,
    list: &mut [u32],
    work: &mut [u16],
) -> Result<Listed, Refusal>
    requires { list.old ≡ zeros list.old }
    ensures { Lists (service_of given runs.now) (tables_of tables.now)
        (rides_asked tables.now given runs.now (length work.old) from to w)
        list.old list.new result }
{
    let q = judge(tables, given, runs, work.len(), from, to, w)?;
    let day = Day { given, runs };
    let file = File {
        bytes: tables,
        stops: day.stops(),
    };
    list_best(file, day, q, list, work)
}

// The same into any list; the working room ends zero.
pub fn answered(
    tables: &[u8],
    given: Given,
    runs: &[u32],
    from: u32,
    to: u32,
    w: Wanted,
    list: &mut [u32],
    work: &mut [u16],
) -> Result<Listed, Refusal>
    ensures lists { Lists (service_of given runs.now) (tables_of tables.now)
        (rides_asked tables.now given runs.now (length work.old) from to w)
        list.old list.new result }
    ensures work_after { work.new ≡ zeros work.old }
{
    loops::zero(list);
    let answer = list_asked(tables, given, runs, from, to, w, list, work);
    loops::zero(work);
    answer
}

// The three asks by name: docs/PROMISES.md has them so, and `kiosk` calls them.
// early(u, v, t): departure at least t; least arrival, then latest departure.
pub fn early(
    tables: &[u8],
    given: Given,
    runs: &[u32],
    from: u32,
    to: u32,
    t: u32,
    list: &mut [u32],
    work: &mut [u16],
) -> Result<Listed, Refusal>
    ensures lists { Lists (service_of given runs.now) (tables_of tables.now)
        (rides_asked tables.now given runs.now (length work.old) from to (wanted.Early t))
        list.old list.new result }
    ensures work_after { work.new ≡ zeros work.old }
{
    answered(tables, given, runs, from, to, Wanted::Early(t), list, work)
}

// late(u, v, t): arrival at most t; latest departure, then least arrival.
pub fn late(
    tables: &[u8],
    given: Given,
    runs: &[u32],
    from: u32,
    to: u32,
    t: u32,
    list: &mut [u32],
    work: &mut [u16],
) -> Result<Listed, Refusal>
    ensures lists { Lists (service_of given runs.now) (tables_of tables.now)
        (rides_asked tables.now given runs.now (length work.old) from to (wanted.Late t))
        list.old list.new result }
    ensures work_after { work.new ≡ zeros work.old }
{
    answered(tables, given, runs, from, to, Wanted::Late(t), list, work)
}

// short(u, v, t, t2): departure at least t, arrival at most t2; least duration, then earliest departure.
pub fn short(
    tables: &[u8],
    given: Given,
    runs: &[u32],
    from: u32,
    to: u32,
    t: u32,
    t2: u32,
    list: &mut [u32],
    work: &mut [u16],
) -> Result<Listed, Refusal>
    ensures lists { Lists (service_of given runs.now) (tables_of tables.now)
        (rides_asked tables.now given runs.now (length work.old) from to (wanted.Short t t2))
        list.old list.new result }
    ensures work_after { work.new ≡ zeros work.old }
{
    answered(
        tables,
        given,
        runs,
        from,
        to,
        Wanted::Short(t, t2),
        list,
        work,
    )
}
