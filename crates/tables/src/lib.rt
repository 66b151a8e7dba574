// The tables file. Everything above reads labels only through what this crate promises.
#![tactic(auto)]

ghost use Rattle.std.specs.Prelude.{◌≡◌, ◌+◌, ◌*◌, ◌≤◌, ◌<◌, length};
ghost use Rattle.loops.specs.Filled.{filled};
ghost use Rattle.kinds.specs.Limits.{most_stops, most_labels};
ghost use Rattle.journeys.specs.Tables.{outs, ins};
ghost use Rattle.tables.specs.Format.{header_bytes};
ghost use Rattle.tables.specs.File.{two_at, stops_of, count_of, start_of, end_of, labels_of, place_of, file_room, pivot_read, label_at, tables_of, bounds_of};
ghost use Rattle.tables.specs.Judged.{follows, good_label, bad_in_set, first_bad, unless_bad, judged_contents, judged_tables};
ghost use Rattle.tables.specs.Turns.{last_of};
ghost use Rattle.tables.specs.Write.{put_two, put_header, put_count, pivot_byte, put_label};
ghost use Rattle.tables.specs.Good.{Contents, Room};

use kinds::{Label, Reason, Refusal, Stop};

// Format 1 of the file (specs/Format.antt).
const MARK: u8 = 1;

const HEADER: usize = 2;

const ENTRY: usize = 4;

const LABEL: usize = 6;

const NO_PIVOT: u8 = 255;

// Room for any file.
pub const FILE_ROOM: usize = HEADER + ENTRY * Stop::MOST + LABEL * Label::MOST;

// The labels of a set are those from `start` up to, not including, `end`.
#[derive(Clone, Copy)]
pub struct Bounds {
    pub start: usize,
    pub end: usize,
}

// The bytes of a file whose contents agree with its length, and how many stops it is for. Its labels need not be good.
#[derive(Clone, Copy)]
pub struct File<'a> {
    pub bytes: &'a [u8],
    pub stops: u16,
    ghost room: { Room bytes.now stops },
}

// Two bytes, low byte first.
fn two_at(bytes: &[u8], i: usize) -> u16
    requires { i + 1 < length bytes.now }
    ensures { result ≡ two_at bytes.now i }
{
    u16::from_le_bytes([bytes[i], bytes[i + 1]])
}

fn pivot_read(x: u8) -> u16
    ensures { result ≡ pivot_read x }
{
    if x == NO_PIVOT {
        Label::NO_PIVOT
    } else {
        u16::from(x)
    }
}

// How many stops a file is for, whether its tables are good or not.
pub fn stop_count(bytes: &[u8]) -> u16
    requires { header_bytes ≤ length bytes.now }
    ensures { result ≡ stops_of bytes.now }
{
    u16::from(bytes[1])
}

// How many bytes a file of n stops and so many labels has; label k begins where a file of k labels would end.
pub fn file_length(n: u16, labels: usize) -> usize
    requires { labels ≤ most_labels }
    ensures { result ≡ place_of n labels }
{
    HEADER + ENTRY * (n as usize) + LABEL * labels
}

pub fn file_room() -> usize
    ensures value { result ≡ FILE_ROOM }
    ensures value_2 { result ≡ file_room }
{
    FILE_ROOM
}

// How many labels a set has. (The sets are numbered: set 2s is the out-labels of stop s, set 2s + 1 its in-labels.)
fn count_of(bytes: &[u8], set: usize) -> usize
    requires { header_bytes + 2 * set + 2 ≤ length bytes.now }
    ensures { result ≡ count_of bytes.now set }
{
    two_at(bytes, HEADER + 2 * set) as usize
}

// The number of a set's first label. The sum is kept wide: it can pass 33 million before the tables are judged.
#[tactic(auto, unfolding(crate::specs::File::start_of))]
fn start_of(bytes: &[u8], set: usize) -> usize
    requires set_bound { set ≤ 2 * most_stops }
    requires set_in_bounds { header_bytes + 2 * set ≤ length bytes.now }
    ensures { result ≡ start_of bytes.now set }
{
    let mut start = 0;
    for j in 0..set {
        start += count_of(bytes, j);
    }
    start
}

// How many labels there are in all.
pub fn label_count(bytes: &[u8], n: u16) -> usize
    requires { Contents bytes.now n }
    ensures { result ≡ labels_of bytes.now }
{
    start_of(bytes, 2 * (n as usize))
}

// Whether a label may come after one with this hub, departure and arrival.
#[tactic(auto, unfolding(crate::specs::Judged::follows))]
fn may_follow(hub: u16, dep: u16, arr: u16, l: Label) -> bool
    ensures { result ≡ follows (last_of hub dep arr) l }
{
    hub < l.hub || (hub == l.hub && dep < l.dep && arr < l.arr)
}

// Whether label i of its set is good; the label before counts only where it is not the first.
#[tactic(auto, unfolding(crate::specs::Judged::good_label))]
fn good_label(n: u16, owner: u16, i: usize, hub: u16, dep: u16, arr: u16, l: Label) -> bool
    ensures { result ≡ good_label n owner i (last_of hub dep arr) l }
{
    if Label::new(n, owner, l.hub, l.dep, l.arr, l.pivot).is_none() {
        return false;
    }
    i == 0 || may_follow(hub, dep, arr, l)
}

impl<'a> File<'a> {
    // Label k.
    #[tactic(auto, unfolding(crate::specs::File::label_at))]
    pub fn label_at(self, k: usize) -> Label
        requires k_bound { k < labels_of self.bytes.now }
        ensures { result ≡ label_at self.entry.bytes.now k }
    {
        let at = file_length(self.stops, k);
        Label {
            hub: u16::from(self.bytes[at]),
            dep: two_at(self.bytes, at + 1),
            arr: two_at(self.bytes, at + 3),
            pivot: pivot_read(self.bytes[at + 5]),
        }
    }

    #[tactic(auto, using(crate::specs::FileLaws::set_within))]
    fn bounds_of(self, set: usize) -> Bounds
        requires set_bound { set < 2 * self.stops }
        ensures { result ≡ record { start = start_of self.entry.bytes.now set; end = end_of self.entry.bytes.now set } }
    {
        let start = start_of(self.bytes, set);
        Bounds {
            start,
            end: start + count_of(self.bytes, set),
        }
    }

    // The out-labels of stop s.
    #[tactic(auto, unfolding(crate::specs::File::tables_of))]
    pub fn outs_of(self, s: u16) -> Bounds
        requires s_lt_n { s < self.stops }
        ensures { result ≡ bounds_of (tables_of self.entry.bytes.now) outs s }
    {
        self.bounds_of(2 * (s as usize))
    }

    // The in-labels of stop s.
    #[tactic(auto, unfolding(crate::specs::File::tables_of))]
    pub fn ins_of(self, s: u16) -> Bounds
        requires s_lt_n { s < self.stops }
        ensures { result ≡ bounds_of (tables_of self.entry.bytes.now) ins s }
    {
        self.bounds_of(2 * (s as usize) + 1)
    }

    // The labels of one set, which begins at label `start`: 11, with the first that is not good.
    #[tactic(auto, using(crate::specs::JudgeLaws::label_turns))]
    fn judge_set(self, set: usize, start: usize, count: usize) -> Result<(), Refusal>
        requires set_bound { set < 2 * self.stops }
        requires start_value { start ≡ start_of self.bytes.now set }
        requires count_value { count ≡ count_of self.bytes.now set }
        requires count_bound { start + count ≤ labels_of self.bytes.now }
        ensures { result ≡ unless_bad (bad_in_set self.entry.bytes.now set) tt }
    {
        let owner = (set / 2) as u16;
        let mut hub = 0;
        let mut dep = 0;
        let mut arr = 0;
        for i in 0..count {
            let l = self.label_at(start + i);
            if !good_label(self.stops, owner, i, hub, dep, arr, l) {
                return Err(Refusal::new(Reason::LabelBad, (start + i) as u32));
            }
            hub = l.hub;
            dep = l.dep;
            arr = l.arr;
        }
        Ok(())
    }

    // All sets in their order.
    #[tactic(auto, using(crate::specs::JudgeLaws::set_turns), unfolding(crate::specs::File::start_of))]
    fn judge_sets(self) -> Result<(), Refusal>
        ensures { result ≡ unless_bad (first_bad self.entry.bytes.now) tt }
    {
        let mut start = 0;
        for set in 0..2 * (self.stops as usize) {
            let count = count_of(self.bytes, set);
            self.judge_set(set, start, count)?;
            start += count;
        }
        Ok(())
    }

    // The starts of all sets in their order, and behind them the number of labels: 2n + 1 numbers, for those who look many sets up.
    #[tactic(auto, using(crate::specs::FileLaws::start_turns), unfolding(crate::specs::File::start_of))]
    pub fn starts(self, room: &mut [u16])
        requires n_in_bounds { 2 * self.stops + 1 ≤ length room.old }
        ensures { room.new ≡ filled (start_of self.entry.bytes.now) (2 * self.entry.stops + 1) room.old }
    {
        let sets = 2 * (self.stops as usize);
        let mut start = 0;
        for set in 0..sets {
            room[set] = start as u16;
            start += count_of(self.bytes, set);
        }
        room[sets] = start as u16;
    }
}

// Behind the header: 10 and 11 in this order, or the stop count.
#[tactic(auto, unfolding(crate::specs::Judged::judged_contents))]
fn judge_contents(bytes: &[u8], n: u16) -> Result<u16, Refusal>
    requires bytes_value { stops_of bytes.now ≡ n }
    requires n_le_most_stops { n ≤ most_stops }
    ensures { result ≡ judged_contents bytes.now }
{
    if bytes.len() < HEADER + ENTRY * (n as usize) {
        return Err(Reason::TablesLength.into());
    }
    let labels = label_count(bytes, n);
    if Label::MOST < labels || bytes.len() != file_length(n, labels) {
        return Err(Reason::TablesLength.into());
    }
    File { bytes, stops: n }.judge_sets()?;
    Ok(n)
}

// Bytes from anywhere: 9, 10 and 11 in this order, or the stop count.
#[tactic(auto, unfolding(crate::specs::Judged::judged_tables))]
pub fn judge(bytes: &[u8]) -> Result<u16, Refusal>
    ensures { result ≡ judged_tables bytes.now }
{
    if bytes.len() < HEADER || bytes[0] != MARK {
        return Err(Reason::NoTables.into());
    }
    let n = stop_count(bytes);
    if !Stop::is_count(u32::from(n)) {
        return Err(Reason::NoTables.into());
    }
    judge_contents(bytes, n)
}

// ---- Writing, for the builder: each of these leaves every other byte as it was (specs/WriteLaws.antt).

fn put_two(bytes: &mut [u8], i: usize, x: u16)
    requires { i + 1 < length bytes.old }
    ensures { bytes.new ≡ put_two bytes.old i x }
{
    let [low, high] = x.to_le_bytes();
    bytes[i] = low;
    bytes[i + 1] = high;
}

// The bytes before the contents.
pub fn write_header(bytes: &mut [u8], n: u16)
    requires n_le_most_stops { n ≤ most_stops }
    requires header_bytes_in_bounds { header_bytes ≤ length bytes.old }
    ensures { bytes.new ≡ put_header bytes.old n }
{
    bytes[0] = MARK;
    bytes[1] = n as u8;
}

// How many labels a set has.
pub fn write_count(bytes: &mut [u8], set: usize, count: u16)
    requires { header_bytes + 2 * set + 2 ≤ length bytes.old }
    ensures { bytes.new ≡ put_count bytes.old set count }
{
    put_two(bytes, HEADER + 2 * set, count);
}

// The low byte of any number, as the contract says: no `try_from`.
fn pivot_byte(p: u16) -> u8
    ensures { result ≡ pivot_byte p }
{
    if p == Label::NO_PIVOT {
        NO_PIVOT
    } else {
        (p % 256) as u8
    }
}

// Label k of a file of n stops.
#[tactic(auto, unfolding(crate::specs::Write::put_label))]
pub fn write_label(bytes: &mut [u8], n: u16, k: usize, l: Label)
    requires k_lt_most_labels { k < most_labels }
    requires k_in_bounds { place_of n (k + 1) ≤ length bytes.old }
    ensures { bytes.new ≡ put_label bytes.old n k l }
{
    let at = file_length(n, k);
    bytes[at] = (l.hub % 256) as u8;
    put_two(bytes, at + 1, l.dep);
    put_two(bytes, at + 3, l.arr);
    bytes[at + 5] = pivot_byte(l.pivot);
}
