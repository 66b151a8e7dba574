// Demands 2 and 3 as functions: tables of the builder are asked; tables from anyone are checked, and only then asked. Their contracts speak of
// the timetable's journeys.
#![tactic(auto)]

ghost use Rattle.std.specs.Prelude.{◌≡◌, length};
ghost use Rattle.loops.specs.Zero.{zeros};
ghost use Rattle.promises.specs.Calls.{CheckedAsk, CheckedRides, BuiltAsk, BuiltRides};

use asks::{Journey, Wanted};
use kinds::Refusal;
use rides::Listed;
use timetable::Given;

// Any ask of tables that the check accepts against the timetable; else the check's refusal.
pub fn checked_ask(
    tables: &[u8],
    given: Given,
    runs: &[u32],
    from: u32,
    to: u32,
    w: Wanted,
    work: &mut [u16],
) -> Result<Journey, Refusal>
    ensures checked_ask { CheckedAsk tables.now given runs.now (length work.old) from to w result }
    ensures work_after { work.new ≡ zeros work.old }
{
    verdict::check(tables, given, runs, work)?;
    asks::answered(tables, from, to, w)
}

// The same with the rides. The check's working room serves the ask as well: both need the same.
pub fn checked_rides(
    tables: &[u8],
    given: Given,
    runs: &[u32],
    from: u32,
    to: u32,
    w: Wanted,
    list: &mut [u32],
    work: &mut [u16],
) -> Result<Listed, Refusal>
    ensures checked_rides { CheckedRides tables.now given runs.now (length work.old) from to w list.old
        list.new result }
    ensures work_after { work.new ≡ zeros work.old }
{
    match verdict::check(tables, given, runs, work) {
        Ok(()) => rides::answered(tables, given, runs, from, to, w, list, work),
        Err(r) => {
            loops::zero(list);
            Err(r)
        }
    }
}

// Any ask of the tables that the builder writes of the timetable; else the builder's refusal. Whatever is refused, the tables end zero.
pub fn built_ask(
    given: Given,
    runs: &[u32],
    from: u32,
    to: u32,
    w: Wanted,
    tables: &mut [u8],
    work: &mut [u16],
) -> Result<Journey, Refusal>
    ensures built_ask { BuiltAsk given runs.now (length work.old) (length tables.old) from to w tables.new result }
    ensures work_after { work.new ≡ zeros work.old }
{
    let built = builder::build(given, runs, tables, work)?;
    let asked = asks::answered(&tables[..built.length as usize], from, to, w);
    if asked.is_err() {
        loops::zero(tables);
    }
    asked
}

// The same with the rides. The builder's working room serves the ask as well: it needs less.
pub fn built_rides(
    given: Given,
    runs: &[u32],
    from: u32,
    to: u32,
    w: Wanted,
    list: &mut [u32],
    tables: &mut [u8],
    work: &mut [u16],
) -> Result<Listed, Refusal>
    ensures built_rides { BuiltRides given runs.now (length work.old) (length tables.old) from to w tables.new
        list.old list.new result }
    ensures work_after { work.new ≡ zeros work.old }
{
    match builder::build(given, runs, tables, work) {
        Ok(built) => {
            let file = &tables[..built.length as usize];
            let asked = rides::answered(file, given, runs, from, to, w, list, work);
            if asked.is_err() {
                loops::zero(tables);
            }
            asked
        }
        Err(r) => {
            loops::zero(list);
            Err(r)
        }
    }
}
