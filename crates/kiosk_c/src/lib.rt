#![tactic(auto)]

// What kiosk engineering links: the functions of the crate `kiosk`, under their names. Every name begins with kiosk_; all numbers are u32; `answer` is
// [0, ..] on success and [number, place, stop, 0] on a refusal. include/kiosk.h says the same for C.
ghost use Rattle.std.specs.Prelude.{◌≡◌, Result, length};
ghost use Rattle.tables.specs.File.{tables_of};
ghost use Rattle.asks.specs.declared.Wanted.TheVariants as wanted;
ghost use Rattle.asks.specs.Asks.{asked, Answers};
ghost use Rattle.reader.specs.Text.{read_text, answer_of, runs_of, codes_of};
ghost use Rattle.loops.specs.Zero.{zeros};
ghost use Rattle.timetable.specs.Numbers.{given_of};
ghost use Rattle.timetable.specs.Slots.{service_of};
ghost use Rattle.both.specs.Both.{work_room};
ghost use Rattle.verdict.specs.Verdict.{Checked};
ghost use Rattle.rides.specs.Lists.{rides_asked, Lists};
ghost use Rattle.kiosk.specs.Four.{four_ask, four_read, four_check, four_rides, four_build};
ghost use Rattle.builder.specs.Build.{build_room, BuildOf};
ghost use Rattle.builder.specs.declared.Built.{Built};
ghost use Rattle.kinds.specs.declared.Refusal.{Refusal};
ghost use Rattle.asks.specs.declared.Journey.{Journey};
ghost use Rattle.rides.specs.declared.Listed.{Listed};

// Reads timetable text into run numbers and the codes' places: [0, stops, runs, 0].
#[unsafe(no_mangle)]
pub extern "C" fn kiosk_read(
    text: &[u8],
    runs: &mut [u32],
    codes: &mut [u32],
    answer: &mut [u32; 4],
)
    ensures answer_after { answer.new ≡ four_read (answer_of (read_text text.now (length runs.old) (length codes.old))) }
    ensures runs_after { runs.new ≡ runs_of (read_text text.now (length runs.old) (length codes.old))
        (length runs.old) }
    ensures codes_after { codes.new ≡ codes_of (read_text text.now (length runs.old) (length codes.old))
        (length codes.old) }
{
    kiosk::kiosk_read(text, runs, codes, answer);
}

// early(from, to, t) over the tables: [0, departure, arrival, 0].
#[unsafe(no_mangle)]
pub extern "C" fn kiosk_early(tables: &[u8], from: u32, to: u32, t: u32, answer: &mut [u32; 4])
    ensures { (x : Result Journey Refusal) × Answers (tables_of tables.now) (asked tables.now from to (wanted.Early t)) x ×
        (answer.new ≡ four_ask x) }
{
    kiosk::kiosk_early(tables, from, to, t, answer);
}

// late(from, to, t) over the tables: [0, departure, arrival, 0].
#[unsafe(no_mangle)]
pub extern "C" fn kiosk_late(tables: &[u8], from: u32, to: u32, t: u32, answer: &mut [u32; 4])
    ensures { (x : Result Journey Refusal) × Answers (tables_of tables.now) (asked tables.now from to (wanted.Late t)) x ×
        (answer.new ≡ four_ask x) }
{
    kiosk::kiosk_late(tables, from, to, t, answer);
}

// short(from, to, t, t2) over the tables: [0, departure, arrival, 0].
#[unsafe(no_mangle)]
pub extern "C" fn kiosk_short(
    tables: &[u8],
    from: u32,
    to: u32,
    t: u32,
    t2: u32,
    answer: &mut [u32; 4],
)
    ensures { (x : Result Journey Refusal) × Answers (tables_of tables.now) (asked tables.now from to (wanted.Short t t2)) x ×
        (answer.new ≡ four_ask x) }
{
    kiosk::kiosk_short(tables, from, to, t, t2, answer);
}

// How many numbers of two bytes the check needs as working room.
#[unsafe(no_mangle)]
pub extern "C" fn kiosk_check_room() -> u32
    ensures { result ≡ work_room }
{
    kiosk::kiosk_check_room()
}

// The check of tables from anyone against a timetable's numbers: [0, 0, 0, 0] where they are accepted.
#[unsafe(no_mangle)]
pub extern "C" fn kiosk_check(
    tables: &[u8],
    stops: u32,
    run_count: u32,
    runs: &[u32],
    work: &mut [u16],
    answer: &mut [u32; 4],
)
    ensures checked { (x : Result Unit Refusal) × Checked tables.now (given_of stops run_count) runs.now (length work.old) x ×
        (answer.new ≡ four_check x) }
    ensures work_after { work.new ≡ zeros work.old }
{
    kiosk::kiosk_check(tables, stops, run_count, runs, work, answer);
}

// How many numbers of two bytes an ask with rides needs as working room.
#[unsafe(no_mangle)]
pub extern "C" fn kiosk_rides_room() -> u32
    ensures { result ≡ work_room }
{
    kiosk::kiosk_rides_room()
}

// early with its rides: [0, departure, arrival, rides], and the run numbers in the list.
#[unsafe(no_mangle)]
pub extern "C" fn kiosk_early_rides(
    tables: &[u8],
    stops: u32,
    run_count: u32,
    runs: &[u32],
    from: u32,
    to: u32,
    t: u32,
    list: &mut [u32],
    work: &mut [u16],
    answer: &mut [u32; 4],
)
    ensures lists { (x : Result Listed Refusal) × Lists (service_of (given_of stops run_count) runs.now) (tables_of tables.now)
        (rides_asked tables.now (given_of stops run_count) runs.now (length work.old) from to (wanted.Early t))
        list.old list.new x × (answer.new ≡ four_rides x) }
    ensures work_after { work.new ≡ zeros work.old }
{
    kiosk::kiosk_early_rides(
        tables, stops, run_count, runs, from, to, t, list, work, answer,
    );
}

// late with its rides: [0, departure, arrival, rides], and the run numbers in the list.
#[unsafe(no_mangle)]
pub extern "C" fn kiosk_late_rides(
    tables: &[u8],
    stops: u32,
    run_count: u32,
    runs: &[u32],
    from: u32,
    to: u32,
    t: u32,
    list: &mut [u32],
    work: &mut [u16],
    answer: &mut [u32; 4],
)
    ensures lists { (x : Result Listed Refusal) × Lists (service_of (given_of stops run_count) runs.now) (tables_of tables.now)
        (rides_asked tables.now (given_of stops run_count) runs.now (length work.old) from to (wanted.Late t))
        list.old list.new x × (answer.new ≡ four_rides x) }
    ensures work_after { work.new ≡ zeros work.old }
{
    kiosk::kiosk_late_rides(
        tables, stops, run_count, runs, from, to, t, list, work, answer,
    );
}

// short with its rides: [0, departure, arrival, rides], and the run numbers in the list.
#[unsafe(no_mangle)]
pub extern "C" fn kiosk_short_rides(
    tables: &[u8],
    stops: u32,
    run_count: u32,
    runs: &[u32],
    from: u32,
    to: u32,
    t: u32,
    t2: u32,
    list: &mut [u32],
    work: &mut [u16],
    answer: &mut [u32; 4],
)
    ensures lists { (x : Result Listed Refusal) × Lists (service_of (given_of stops run_count) runs.now) (tables_of tables.now)
        (rides_asked tables.now (given_of stops run_count) runs.now (length work.old) from to (wanted.Short t t2))
        list.old list.new x × (answer.new ≡ four_rides x) }
    ensures work_after { work.new ≡ zeros work.old }
{
    kiosk::kiosk_short_rides(
        tables, stops, run_count, runs, from, to, t, t2, list, work, answer,
    );
}

// How many numbers of two bytes the build needs as working room.
#[unsafe(no_mangle)]
pub extern "C" fn kiosk_build_room() -> u32
    ensures { result ≡ build_room }
{
    kiosk::kiosk_build_room()
}

// The tables of the label rule for a timetable's numbers: [0, length, labels, 0].
#[unsafe(no_mangle)]
pub extern "C" fn kiosk_build(
    stops: u32,
    run_count: u32,
    runs: &[u32],
    tables: &mut [u8],
    work: &mut [u16],
    answer: &mut [u32; 4],
)
    ensures build_of { (x : Result Built Refusal) × BuildOf (given_of stops run_count) runs.now (length work.old)
        (length tables.old) x tables.new × (answer.new ≡ four_build x) }
    ensures work_after { work.new ≡ zeros work.old }
{
    kiosk::kiosk_build(stops, run_count, runs, tables, work, answer);
}
