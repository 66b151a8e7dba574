#![tactic(auto)]

// What kiosk engineering calls. Every name begins with kiosk_; all numbers are u32; `answer` is [0, ..] on success and
// [number, place, stop, 0] on a refusal. The crate `kiosk_c` exports these functions under their names.
ghost use Rattle.std.specs.Prelude.{◌≡◌, ℕ, List, Result, length};
ghost use Rattle.tables.specs.File.{tables_of};
ghost use Rattle.asks.specs.declared.Wanted.TheVariants as wanted;
ghost use Rattle.asks.specs.Asks.{asked, Answers};
ghost use Rattle.reader.specs.Text.{read_text, answer_of, runs_of, codes_of};
ghost use Rattle.loops.specs.Zero.{zeros};
ghost use Rattle.timetable.specs.Numbers.{given_of};
ghost use Rattle.timetable.specs.Slots.{service_of};
ghost use Rattle.both.specs.Both.{work_room};
ghost use Rattle.verdict.specs.Verdict.{Checked};
ghost use Rattle.rides.specs.Lists.{rides_asked, Lists};
ghost use Rattle.kiosk.specs.Four.{four, told_ask, told_read, told_check, told_rides, told_build, four_ask, four_read, four_check, four_rides, four_build};
ghost use Rattle.builder.specs.Build.{build_room, BuildOf};
ghost use Rattle.builder.specs.declared.Built.{Built};
ghost use Rattle.kinds.specs.declared.Refusal.{Refusal};
ghost use Rattle.asks.specs.declared.Journey.{Journey};
ghost use Rattle.rides.specs.declared.Listed.{Listed};

use asks::Journey;
use builder::{Built, Work};
use kinds::Refusal;
use reader::Counts;
use rides::Listed;
use timetable::Given;

// What a success tells in the four numbers.
trait Told {
    ghost told: { Self → List ℕ };

    fn told(self) -> [u32; 4]
        ensures { result ≡ told self };
}

impl Told for Counts {
    ghost told = { told_read };

    fn told(self) -> [u32; 4] {
        [0, self.stops, self.runs, 0]
    }
}

impl Told for Journey {
    ghost told = { told_ask };

    fn told(self) -> [u32; 4] {
        [0, self.dep as u32, self.arr as u32, 0]
    }
}

// Accepted tables: there is no more to tell.
impl Told for () {
    ghost told = { told_check };

    fn told(self) -> [u32; 4] {
        [0, 0, 0, 0]
    }
}

impl Told for Listed {
    ghost told = { told_rides };

    fn told(self) -> [u32; 4] {
        [0, self.dep as u32, self.arr as u32, self.rides]
    }
}

impl Told for Built {
    ghost told = { told_build };

    fn told(self) -> [u32; 4] {
        [0, self.length, self.labels, 0]
    }
}

// The four numbers of an answer.
fn four<T: Told>(answer: Result<T, Refusal>) -> [u32; 4]
    ensures { result ≡ four T.told answer }
{
    match answer {
        Ok(success) => success.told(),
        Err(r) => [r.reason.number(), r.place, r.stop, 0],
    }
}

// Reads timetable text into run numbers and the codes' places: [0, stops, runs, 0].
pub fn kiosk_read(text: &[u8], runs: &mut [u32], codes: &mut [u32], answer: &mut [u32; 4])
    ensures answer_after { answer.new ≡ four_read (answer_of (read_text text.now (length runs.old) (length codes.old))) }
    ensures runs_after { runs.new ≡ runs_of (read_text text.now (length runs.old) (length codes.old))
        (length runs.old) }
    ensures codes_after { codes.new ≡ codes_of (read_text text.now (length runs.old) (length codes.old))
        (length codes.old) }
{
    *answer = four(reader::read(text, runs, codes));
}

// early(from, to, t) over the tables: [0, departure, arrival, 0].
pub fn kiosk_early(tables: &[u8], from: u32, to: u32, t: u32, answer: &mut [u32; 4])
    ensures { (x : Result Journey Refusal) × Answers (tables_of tables.now) (asked tables.now from to (wanted.Early t)) x ×
        (answer.new ≡ four_ask x) }
{
    *answer = four(asks::early(tables, from, to, t));
}

// late(from, to, t) over the tables: [0, departure, arrival, 0].
pub fn kiosk_late(tables: &[u8], from: u32, to: u32, t: u32, answer: &mut [u32; 4])
    ensures { (x : Result Journey Refusal) × Answers (tables_of tables.now) (asked tables.now from to (wanted.Late t)) x ×
        (answer.new ≡ four_ask x) }
{
    *answer = four(asks::late(tables, from, to, t));
}

// short(from, to, t, t2) over the tables: [0, departure, arrival, 0].
pub fn kiosk_short(tables: &[u8], from: u32, to: u32, t: u32, t2: u32, answer: &mut [u32; 4])
    ensures { (x : Result Journey Refusal) × Answers (tables_of tables.now) (asked tables.now from to (wanted.Short t t2)) x ×
        (answer.new ≡ four_ask x) }
{
    *answer = four(asks::short(tables, from, to, t, t2));
}

// How many numbers of two bytes the check needs as working room.
pub fn kiosk_check_room() -> u32
    ensures { result ≡ work_room }
{
    both::ROOM as u32
}

// The check of tables from anyone against a timetable's numbers: [0, 0, 0, 0] where they are accepted.
pub fn kiosk_check(
    tables: &[u8],
    stops: u32,
    run_count: u32,
    runs: &[u32],
    work: &mut [u16],
    answer: &mut [u32; 4],
)
    ensures checked { (x : Result Unit Refusal) × Checked tables.now (given_of stops run_count) runs.now (length work.old) x ×
        (answer.new ≡ four_check x) }
    ensures work_after { work.new ≡ zeros work.old }
{
    let given = Given {
        stops,
        runs: run_count,
    };
    *answer = four(verdict::check(tables, given, runs, work));
}

// How many numbers of two bytes an ask with rides needs as working room. (As many as the check; C has both names.)
pub fn kiosk_rides_room() -> u32
    ensures { result ≡ work_room }
{
    both::ROOM as u32
}

// early with its rides: [0, departure, arrival, rides], and the run numbers in the list.
pub fn kiosk_early_rides(
    tables: &[u8],
    stops: u32,
    run_count: u32,
    runs: &[u32],
    from: u32,
    to: u32,
    t: u32,
    list: &mut [u32],
    work: &mut [u16],
    answer: &mut [u32; 4],
)
    ensures lists { (x : Result Listed Refusal) × Lists (service_of (given_of stops run_count) runs.now) (tables_of tables.now)
        (rides_asked tables.now (given_of stops run_count) runs.now (length work.old) from to (wanted.Early t))
        list.old list.new x × (answer.new ≡ four_rides x) }
    ensures work_after { work.new ≡ zeros work.old }
{
    let given = Given {
        stops,
        runs: run_count,
    };
    *answer = four(rides::early(tables, given, runs, from, to, t, list, work));
}

// late with its rides: [0, departure, arrival, rides], and the run numbers in the list.
pub fn kiosk_late_rides(
    tables: &[u8],
    stops: u32,
    run_count: u32,
    runs: &[u32],
    from: u32,
    to: u32,
    t: u32,
    list: &mut [u32],
    work: &mut [u16],
    answer: &mut [u32; 4],
)
    ensures lists { (x : Result Listed Refusal) × Lists (service_of (given_of stops run_count) runs.now) (tables_of tables.now)
        (rides_asked tables.now (given_of stops run_count) runs.now (length work.old) from to (wanted.Late t))
        list.old list.new x × (answer.new ≡ four_rides x) }
    ensures work_after { work.new ≡ zeros work.old }
{
    let given = Given {
        stops,
        runs: run_count,
    };
    *answer = four(rides::late(tables, given, runs, from, to, t, list, work));
}

// short with its rides: [0, departure, arrival, rides], and the run numbers in the list.
pub fn kiosk_short_rides(
    tables: &[u8],
    stops: u32,
    run_count: u32,
    runs: &[u32],
    from: u32,
    to: u32,
    t: u32,
    t2: u32,
    list: &mut [u32],
    work: &mut [u16],
    answer: &mut [u32; 4],
)
    ensures lists { (x : Result Listed Refusal) × Lists (service_of (given_of stops run_count) runs.now) (tables_of tables.now)
        (rides_asked tables.now (given_of stops run_count) runs.now (length work.old) from to (wanted.Short t t2))
        list.old list.new x × (answer.new ≡ four_rides x) }
    ensures work_after { work.new ≡ zeros work.old }
{
    let given = Given {
        stops,
        runs: run_count,
    };
    *answer = four(rides::short(tables, given, runs, from, to, t, t2, list, work));
}

// How many numbers of two bytes the build needs as working room.
pub fn kiosk_build_room() -> u32
    ensures { result ≡ build_room }
{
    Work::ROOM as u32
}

// The tables of the label rule for a timetable's numbers: [0, length, labels, 0].
pub fn kiosk_build(
    stops: u32,
    run_count: u32,
    runs: &[u32],
    tables: &mut [u8],
    work: &mut [u16],
    answer: &mut [u32; 4],
)
    ensures build_of { (x : Result Built Refusal) × BuildOf (given_of stops run_count) runs.now (length work.old)
        (length tables.old) x tables.new × (answer.new ≡ four_build x) }
    ensures work_after { work.new ≡ zeros work.old }
{
    let given = Given {
        stops,
        runs: run_count,
    };
    *answer = four(builder::build(given, runs, tables, work));
}
