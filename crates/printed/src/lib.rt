// The lines that the program "journey" prints, written into a buffer that the caller lends, and the pieces that other printed lines are made of. Each
// function answers the place after the bytes that it wrote; what stands in the buffer elsewhere is as it was.
#![tactic(auto)]

ghost use Rattle.std.specs.Prelude.{◌≡◌, [], ◌∷◌, ◌+◌, ◌≤◌, ◌<◌, length, take, drop};
ghost use Rattle.words.specs.Words.{lf, space};
ghost use Rattle.kinds.specs.Limits.{most_code};
ghost use Rattle.kinds.specs.Kinds.{CodeIn};
ghost use Rattle.printed.specs.Printed.{most_digits, decimal, code_of, at_line, ride_line, no_line, no_place_line, longest_line};
ghost use Rattle.printed.specs.Wrote.{Wrote};

use kinds::Code;

// As many digits as a number can have.
const DIGITS: usize = 10;

// Room for any line: the longest is a ride's.
pub const LINE_ROOM: usize = 4 + 2 * (1 + Code::MOST) + 3 * (1 + DIGITS) + 1;

pub fn line_room() -> usize
    ensures value { result ≡ LINE_ROOM }
    ensures value_2 { result ≡ longest_line }
{
    LINE_ROOM
}

// n bytes of s from `from` on.
#[tactic(auto, using(crate::specs::WroteLaws::wrote_part))]
pub fn put_part(out: &mut [u8], at: usize, s: &[u8], from: usize, n: usize) -> usize
    requires { (at + n ≤ length out.old) × (from + n ≤ length s.now) }
    ensures { Wrote out.old at (take n (drop from s.now)) out.new result }
{
    out[at..at + n].copy_from_slice(&s[from..from + n]);
    at + n
}

// A number in decimal: its tenth first, then its last digit. A recursion, and not std's `write!`, which goes through a formatter for each number.
#[tactic(auto, using(crate::specs::WroteLaws::decimal_turns))]
fn put_decimal(out: &mut [u8], at: usize, n: u32) -> usize
    requires { at + length (decimal n) ≤ length out.old }
    ensures { Wrote out.old at (decimal n) out.new result }
{
    if n < 10 {
        out[at] = b'0' + n as u8;
        return at + 1;
    }
    let last = put_decimal(out, at, n / 10);
    out[last] = b'0' + (n % 10) as u8;
    last + 1
}

// A space and a number.
#[tactic(auto, using(crate::specs::WroteLaws::piece_steps))]
pub fn put_number(out: &mut [u8], at: usize, n: u32) -> usize
    requires { at + 1 + most_digits ≤ length out.old }
    ensures wrote { Wrote out.old at (space ∷ decimal n) out.new result }
    ensures upper_bound { result ≤ at + 1 + most_digits }
{
    out[at] = b' ';
    put_decimal(out, at + 1, n)
}

// A space and a code.
#[tactic(auto, using(crate::specs::WroteLaws::piece_steps))]
pub fn put_code(out: &mut [u8], at: usize, text: &[u8], code: Code) -> usize
    requires most_code_in_bounds { at + 1 + most_code ≤ length out.old }
    requires code_in { CodeIn text.now code }
    ensures wrote { Wrote out.old at (space ∷ code_of text.now code) out.new result }
    ensures upper_bound { result ≤ at + 1 + most_code }
{
    out[at] = b' ';
    put_part(out, at + 1, text, code.start as usize, code.length as usize)
}

// The end of a line.
pub fn put_lf(out: &mut [u8], at: usize) -> usize
    requires { at < length out.old }
    ensures { Wrote out.old at (lf ∷ []) out.new result }
{
    out[at] = b'\n';
    at + 1
}

// "at DEP ARR RIDES"
pub fn at_line(out: &mut [u8], dep: u32, arr: u32, rides: u32) -> usize
    requires { longest_line ≤ length out.old }
    ensures wrote { Wrote out.old 0 (at_line dep arr rides) out.new result }
    ensures upper_bound { result ≤ longest_line }
{
    let a = put_part(out, 0, b"at", 0, 2);
    let b = put_number(out, a, dep);
    let c = put_number(out, b, arr);
    let d = put_number(out, c, rides);
    put_lf(out, d)
}

// "ride FROM TO DEP ARR TRIP"; the codes stand in `text`.
pub fn ride_line(
    out: &mut [u8],
    text: &[u8],
    from: Code,
    to: Code,
    dep: u32,
    arr: u32,
    trip: u32,
) -> usize
    requires longest_line_in_bounds { longest_line ≤ length out.old }
    requires code_in { CodeIn text.now from × CodeIn text.now to }
    ensures wrote { Wrote out.old 0 (ride_line text.now from to dep arr trip) out.new result }
    ensures upper_bound { result ≤ longest_line }
{
    let a = put_part(out, 0, b"ride", 0, 4);
    let b = put_code(out, a, text, from);
    let c = put_code(out, b, text, to);
    let d = put_number(out, c, dep);
    let e = put_number(out, d, arr);
    let f = put_number(out, e, trip);
    put_lf(out, f)
}

// "no NUMBER"
pub fn no_line(out: &mut [u8], number: u32) -> usize
    requires { longest_line ≤ length out.old }
    ensures wrote { Wrote out.old 0 (no_line number) out.new result }
    ensures upper_bound { result ≤ longest_line }
{
    let a = put_part(out, 0, b"no", 0, 2);
    let b = put_number(out, a, number);
    put_lf(out, b)
}

// "no NUMBER PLACE"
pub fn no_place_line(out: &mut [u8], number: u32, place: u32) -> usize
    requires { longest_line ≤ length out.old }
    ensures wrote { Wrote out.old 0 (no_place_line number place) out.new result }
    ensures upper_bound { result ≤ longest_line }
{
    let a = put_part(out, 0, b"no", 0, 2);
    let b = put_number(out, a, number);
    let c = put_number(out, b, place);
    put_lf(out, c)
}
