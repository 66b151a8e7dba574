// The kinds of things that the kiosk speaks of, each with its limits and its constructors.
// A limit stands here, under the kind of thing it limits, and in specs/Limits.antt for the definitions;
// the functions `..most..` and `last` are proved to say both, so that the two cannot drift apart.
#![tactic(auto)]

ghost use Rattle.std.specs.Prelude.{◌≡◌, ◌*◌, ◌≤◌};
ghost use Rattle.kinds.specs.Limits.{
  most_stops,
  codes_room,
  most_runs,
  run_numbers,
  runs_room,
  most_labels,
  no_pivot,
  last_minute,
  unreached,
  most_trip,
  most_code,
  most_text,
  most_input,
};
ghost use Rattle.kinds.specs.Refusals.{number_of, all_numbers, refusal};
ghost use Rattle.kinds.specs.Kinds.{stop_of, is_stop_count, minute_of, trip_of, is_run_count, run_of, label_of, is_code_byte, is_code_length};

// ---- Stops: 1 to 255, numbered from 0 in rank order.

#[derive(Clone, Copy)]
pub struct Stop(pub u16);

impl Stop {
    pub const MOST: usize = 255;
    // Two numbers a code: where it starts and how long it is.
    pub const CODES_ROOM: usize = 2 * Stop::MOST;

    pub fn most() -> usize
        ensures constant { result ≡ Stop.MOST }
        ensures value { result ≡ most_stops }
    {
        Stop::MOST
    }

    pub fn codes_room() -> usize
        ensures constant { result ≡ Stop.CODES_ROOM }
        ensures value { result ≡ codes_room }
    {
        Stop::CODES_ROOM
    }

    // Whether there can be so many stops.
    #[tactic(auto, unfolding(crate::specs::Kinds::is_stop_count), using(std::proofs::lemmas::Bool::Decides::nat_tests))]
    pub fn is_count(n: u32) -> bool
        ensures { result ≡ is_stop_count n }
    {
        n != 0 && (n as usize) <= Stop::MOST
    }

    // The stop of this number, of `count` stops.
    #[tactic(auto, unfolding(crate::specs::Kinds::stop_of), using(std::proofs::lemmas::Bool::Decides::nat_tests))]
    pub fn new(n: u32, count: u32) -> Option<Stop>
        requires { count ≤ most_stops }
        ensures { result ≡ stop_of n count }
    {
        if n < count {
            Some(Stop(n as u16))
        } else {
            None
        }
    }
}

// ---- Minutes: 0 to 2,879.

#[derive(Clone, Copy)]
pub struct Minute(pub u16);

impl Minute {
    pub const LAST: u16 = 2879;
    // In the place of a minute: not reached. It is later than every minute, so that the sooner of two is always right.
    // (No `Option`: it stands in lent rooms of 16-bit numbers.)
    pub const UNREACHED: u16 = 65535;

    pub fn last() -> u16
        ensures constant { result ≡ Minute.LAST }
        ensures value { result ≡ last_minute }
    {
        Minute::LAST
    }

    pub fn unreached() -> u16
        ensures constant { result ≡ Minute.UNREACHED }
        ensures value { result ≡ unreached }
    {
        Minute::UNREACHED
    }

    #[tactic(auto, unfolding(crate::specs::Kinds::minute_of), using(std::proofs::lemmas::Bool::Decides::nat_tests))]
    pub fn new(n: u32) -> Option<Minute>
        ensures { result ≡ minute_of n }
    {
        if n <= (Minute::LAST as u32) {
            Some(Minute(n as u16))
        } else {
            None
        }
    }
}

// ---- Trip numbers: 1 to 65,535.

#[derive(Clone, Copy)]
pub struct Trip(pub u16);

impl Trip {
    pub const MOST: u32 = 65535;

    pub fn most() -> u32
        ensures constant { result ≡ Trip.MOST }
        ensures value { result ≡ most_trip }
    {
        Trip::MOST
    }

    #[tactic(auto, unfolding(crate::specs::Kinds::trip_of), using(std::proofs::lemmas::Bool::Decides::nat_tests))]
    pub fn new(n: u32) -> Option<Trip>
        ensures { result ≡ trip_of n }
    {
        if n == 0 || Trip::MOST < n {
            return None;
        }
        Some(Trip(n as u16))
    }
}

// ---- Runs: 0 to 4,096, numbered from 0 in file order; five numbers a run.

#[derive(Clone, Copy)]
pub struct Run {
    pub from: u16,
    pub to: u16,
    pub dep: u16,
    pub arr: u16,
    pub trip: u16,
}

impl Run {
    pub const MOST: usize = 4096;

    pub const NUMBERS: usize = 5;

    pub const ROOM: usize = Run::NUMBERS * Run::MOST;

    pub fn most() -> usize
        ensures constant { result ≡ Run.MOST }
        ensures value { result ≡ most_runs }
    {
        Run::MOST
    }

    pub fn numbers() -> usize
        ensures constant { result ≡ Run.NUMBERS }
        ensures value { result ≡ run_numbers }
    {
        Run::NUMBERS
    }

    pub fn room() -> usize
        ensures constant { result ≡ Run.ROOM }
        ensures value { result ≡ runs_room }
    {
        Run::ROOM
    }

    #[tactic(auto, unfolding(crate::specs::Kinds::is_run_count), using(std::proofs::lemmas::Bool::Decides::nat_tests))]
    pub fn is_count(n: u32) -> bool
        ensures { result ≡ is_run_count n }
    {
        (n as usize) <= Run::MOST
    }

    // The run of these five numbers, among `stops` stops; or why there is none: 5, 6 or 7, in this order. Values are judged as they are.
    #[tactic(auto, unfolding(crate::specs::Kinds::run_of), using(std::proofs::lemmas::Bool::Decides::nat_tests))]
    pub fn new(stops: u32, from: u32, to: u32, dep: u32, arr: u32, trip: u32) -> Result<Run, Reason>
        requires { stops ≤ most_stops }
        ensures { result ≡ run_of stops from to dep arr trip }
    {
        if stops <= from || stops <= to {
            return Err(Reason::StopUnknown);
        }
        if from == to {
            return Err(Reason::OwnStop);
        }
        if arr <= dep || (Minute::LAST as u32) < arr || trip == 0 || Trip::MOST < trip {
            return Err(Reason::OutOfRange);
        }
        Ok(Run {
            from: from as u16,
            to: to as u16,
            dep: dep as u16,
            arr: arr as u16,
            trip: trip as u16,
        })
    }
}

// ---- Labels: 0 to 8,192 in all.

#[derive(Clone, Copy)]
pub struct Label {
    pub hub: u16,
    pub dep: u16,
    pub arr: u16,
    pub pivot: u16,
}

impl Label {
    pub const MOST: usize = 8192;
    // The pivot of a label that has none. No stop has this number, and the file says it in its own way.
    pub const NO_PIVOT: u16 = 65535;

    pub fn most() -> usize
        ensures constant { result ≡ Label.MOST }
        ensures value { result ≡ most_labels }
    {
        Label::MOST
    }

    pub fn no_pivot() -> u16
        ensures constant { result ≡ Label.NO_PIVOT }
        ensures value { result ≡ no_pivot }
    {
        Label::NO_PIVOT
    }

    // A label of `owner`, among `stops` stops, if it is good by itself.
    #[tactic(auto, unfolding(crate::specs::Kinds::label_of), using(std::proofs::lemmas::Bool::Decides::nat_tests))]
    pub fn new(stops: u16, owner: u16, hub: u16, dep: u16, arr: u16, pivot: u16) -> Option<Label>
        ensures { result ≡ label_of stops owner hub dep arr pivot }
    {
        // early ends, not tests joined into one: this is asked at each label of a file
        if owner <= hub {
            return None;
        }
        if arr <= dep {
            return None;
        }
        if Minute::LAST < arr {
            return None;
        }
        if pivot != Label::NO_PIVOT {
            if pivot <= hub {
                return None;
            }
            if stops <= pivot {
                return None;
            }
            if pivot == owner {
                return None;
            }
        }
        Some(Label {
            hub,
            dep,
            arr,
            pivot,
        })
    }
}

// ---- Codes: 1 to 64 bytes, each 33 to 126.

#[derive(Clone, Copy)]
pub struct Code {
    pub start: u32,
    pub length: u32,
}

impl Code {
    pub const MOST: usize = 64;

    pub const LEAST_BYTE: u8 = 33;

    pub const MOST_BYTE: u8 = 126;

    pub fn most() -> usize
        ensures constant { result ≡ Code.MOST }
        ensures value { result ≡ most_code }
    {
        Code::MOST
    }

    #[tactic(auto, unfolding(crate::specs::Kinds::is_code_byte), using(std::proofs::lemmas::Bool::Decides::nat_tests))]
    pub fn is_byte(b: u8) -> bool
        ensures { result ≡ is_code_byte b }
    {
        // an early end: this is asked at each byte of a code
        if b < Code::LEAST_BYTE {
            return false;
        }
        b <= Code::MOST_BYTE
    }

    #[tactic(auto, unfolding(crate::specs::Kinds::is_code_length), using(std::proofs::lemmas::Bool::Decides::nat_tests))]
    pub fn is_length(n: usize) -> bool
        ensures { result ≡ is_code_length n }
    {
        n != 0 && n <= Code::MOST
    }
}

// ---- Text: at most 1,048,576 bytes; the program holds at most 65,536 bytes of input.

#[derive(Clone, Copy)]
pub struct Text(pub u32);

impl Text {
    pub const MOST: usize = 1048576;

    pub const INPUT_MOST: usize = 65536;

    pub fn most() -> usize
        ensures constant { result ≡ Text.MOST }
        ensures value { result ≡ most_text }
    {
        Text::MOST
    }

    pub fn input_most() -> usize
        ensures constant { result ≡ Text.INPUT_MOST }
        ensures value { result ≡ most_input }
    {
        Text::INPUT_MOST
    }
}

// ---- Refusals. A refusal carries number and place only; the stop is the second place of refusal 20, else 0.

// Why something is refused, by the list of document 01, "Numbers given back". specs/Refusals.antt has each with its meaning.
#[derive(Clone, Copy, Debug, PartialEq, Eq)]
pub enum Reason {
    FirstLine = 1,
    LineShape = 2,
    CodeBad = 3,
    CodeRepeated = 4,
    StopUnknown = 5,
    OwnStop = 6,
    OutOfRange = 7,
    OverLimit = 8,
    NoTables = 9,
    TablesLength = 10,
    LabelBad = 11,
    StopHigh = 12,
    SameStop = 13,
    MinuteHigh = 14,
    MinutesCrossed = 15,
    NoJourney = 16,
    RoomShort = 17,
    RidesMissing = 18,
    Unsupported = 19,
    Gap = 20,
    StopsDiffer = 21,
    LabelsOver = 22,
}

impl Reason {
    // The number that is given back for it.
    pub fn number(self) -> u32
        ensures { result ≡ number_of self }
    {
        self as u32
    }
}

#[derive(Clone, Copy, Debug, PartialEq, Eq)]
pub struct Refusal {
    pub reason: Reason,
    pub place: u32,
    pub stop: u32,
}

impl Refusal {
    // All numbers in order.
    pub fn numbers() -> [u32; 22]
        ensures { result ≡ all_numbers }
    {
        [
            Reason::FirstLine as u32,
            Reason::LineShape as u32,
            Reason::CodeBad as u32,
            Reason::CodeRepeated as u32,
            Reason::StopUnknown as u32,
            Reason::OwnStop as u32,
            Reason::OutOfRange as u32,
            Reason::OverLimit as u32,
            Reason::NoTables as u32,
            Reason::TablesLength as u32,
            Reason::LabelBad as u32,
            Reason::StopHigh as u32,
            Reason::SameStop as u32,
            Reason::MinuteHigh as u32,
            Reason::MinutesCrossed as u32,
            Reason::NoJourney as u32,
            Reason::RoomShort as u32,
            Reason::RidesMissing as u32,
            Reason::Unsupported as u32,
            Reason::Gap as u32,
            Reason::StopsDiffer as u32,
            Reason::LabelsOver as u32,
        ]
    }

    pub fn new(reason: Reason, place: u32) -> Refusal
        ensures { result ≡ refusal reason place }
    {
        Refusal {
            reason,
            place,
            stop: 0,
        }
    }
}

// Where a call names no place, the place is 0.
impl From<Reason> for Refusal {
    ghost from_gives = { λ reason r. r ≡ refusal reason 0 };

    fn from(reason: Reason) -> Refusal {
        Refusal::new(reason, 0)
    }
}
