// Tables and timetable judged together: what the check and the asks with rides refuse before they hold one against the other.
#![tactic(auto)]

ghost use Rattle.std.specs.Prelude.{◌≡◌};
ghost use Rattle.tables.specs.Judged.{judged_tables};
ghost use Rattle.timetable.specs.Numbers.{judged_of};
ghost use Rattle.both.specs.Both.{work_room, judged_both};

use kinds::{Label, Reason, Refusal};
use timetable::Given;

// Working room, in numbers of two bytes: the starts of the sets, and behind them a number for each label. The rides by departure, which the
// ride list has there instead, need less.
pub const ROOM: usize = label_sets::STARTS + Label::MOST;

pub fn room() -> usize
    ensures value { result ≡ ROOM }
    ensures value_2 { result ≡ work_room }
{
    ROOM
}

// 9, 10 and 11, then the timetable's 8, 17, 5, 6 and 7, then 21; or the stop count of both.
pub fn judge(tables: &[u8], given: Given, runs: &[u32], lent: usize) -> Result<u16, Refusal>
    ensures { result ≡ judged_both (judged_tables tables.now) (judged_of given runs.now lent work_room) given.stops }
{
    let n = tables::judge(tables)?;
    timetable::judge(given, runs, lent, ROOM)?;
    if (n as u32) != given.stops {
        return Err(Refusal::new(Reason::StopsDiffer, 0));
    }
    Ok(n)
}
