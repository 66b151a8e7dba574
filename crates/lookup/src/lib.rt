// Which stop has a code. Codes are compared whole: the length first, then every byte.
#![tactic(auto)]

ghost use Rattle.std.specs.Prelude.{◌≡◌, ◌+◌, ◌*◌, ◌-◌, ◌%◌, ◌≤◌, ◌<◌, length};
ghost use Rattle.lookup.specs.Lookup.{code_at, has_code, stop_named, put_code, Placed};
ghost use Rattle.kinds.specs.Limits.{most_stops, most_code};
ghost use Rattle.lookup.specs.Mark.{words_below, marks_below, Small, marked_bytes, word_at, mixed_of, start_of_mix, blocks_of, few_at, ends_of, mark_of};
ghost use Rattle.lookup.specs.Index.{slot_count, slot_for, onward_of, is_entry, CodesIndexed, Enterable, Vacant, Stood};

use kinds::Code;
use words::Stretch;

// The codes of so many stops, which stand in the text.
#[derive(Clone, Copy)]
pub struct Known<'a> {
    pub text: &'a [u8],
    pub codes: &'a [u32],
    pub stops: u32,
    ghost placed: { Placed text.now codes.now stops },
}

// Where the code of stop j stands.
pub fn code_at(codes: &[u32], j: usize) -> Code
    requires { 2 * j + 2 ≤ length codes.now }
    ensures { result ≡ code_at codes.now j }
{
    Code {
        start: codes[2 * j],
        length: codes[2 * j + 1],
    }
}

// How many slots the index has: numbers of 64 bits, a mark and a stop in each, 0 where no stop stands. (No map: there is no heap.)
pub const SLOTS: usize = 2048;

// In how many slots a code is looked for.
const PROBES: usize = 32;

// 2 ^ 30.
const FACTORS_BELOW: u64 = 1073741824;

// What the bytes of a code that were read come to.
#[derive(Clone, Copy)]
struct Mix {
    a: u64,
    b: u64,
    c: u64,
    d: u64,
}

// The words that the last bytes of a code come to.
#[derive(Clone, Copy)]
struct Ends {
    first: u64,
    last: u64,
}

// Where a code's way ended: the stop with the code, or `stops`; the code's mark; and the slot that is free for it, or SLOTS.
#[derive(Clone, Copy)]
struct Walked {
    stop: u32,
    mark: u64,
    place: usize,
}

// Four bytes as a number.
#[tactic(auto, unfolding(crate::specs::Mark::word_at))]
fn word(t: &[u8], at: usize) -> u64
    requires { at + 4 ≤ length t.now }
    ensures { (result ≡ word_at t.now at) × (result < words_below) }
{
    u32::from_le_bytes([t[at], t[at + 1], t[at + 2], t[at + 3]]) as u64
}

// Two words mixed in.
#[tactic(auto, unfolding(crate::specs::Mark::mixed_of), using(crate::specs::MarkLaws::mixed_small))]
fn mixed(m: Mix, w: u64, v: u64) -> Mix
    requires small { Small m }
    requires w_lt_words_below { (w < words_below) × (v < words_below) }
    ensures { (result ≡ mixed_of m w v) × Small result }
{
    let p = (m.a + w + 1) * (2 * m.b + 1);
    let q = (m.c + v + 1) * (2 * m.d + 1);
    Mix {
        a: q / 8589934592,
        b: (p + 2 * v) % FACTORS_BELOW,
        c: p / 8589934592,
        d: (q + 2 * w) % FACTORS_BELOW,
    }
}

// The first blocks of eight bytes, so many, of a code of k bytes.
#[tactic(auto, using(crate::specs::MarkLaws::mixing_end))]
fn blocks(t: &[u8], from: usize, k: usize, count: usize) -> Mix
    requires { (k ≤ most_code) × (from + 8 * count ≤ length t.now) }
    ensures { (result ≡ blocks_of t.now from (start_of_mix k) count) × Small result }
{
    let mut m = Mix {
        a: 314159265 + (k as u64),
        b: 764620624,
        c: 141421356,
        d: 992991361,
    };
    for i in 0..count {
        let at = from + 8 * i;
        m = mixed(m, word(t, at), word(t, at + 4));
    }
    m
}

// Up to three bytes as a number.
#[tactic(auto, unfolding(crate::specs::Mark::few_at))]
fn few(t: &[u8], from: usize, k: usize) -> u64
    requires { from + k ≤ length t.now }
    ensures { (result ≡ few_at t.now from k) × (result < words_below) }
{
    if k == 0 {
        return 0;
    }
    t[from] as u64 + 256 * t[from + k / 2] as u64 + 65536 * t[from + (k - 1)] as u64
}

// The last of k bytes as two words.
#[tactic(auto, unfolding(crate::specs::Mark::ends_of))]
fn end_words(t: &[u8], from: usize, k: usize) -> Ends
    requires { from + k ≤ length t.now }
    ensures { (result ≡ ends_of t.now from k) × (result.first < words_below) × (result.last < words_below) }
{
    if k < 4 {
        return Ends {
            first: few(t, from, k),
            last: 0,
        };
    }
    Ends {
        first: word(t, from + k.saturating_sub(8)),
        last: word(t, from + (k - 4)),
    }
}

// The code's mark: equal codes have the same one.
#[tactic(auto, unfolding(crate::specs::Mark::mark_of_bytes, crate::specs::Mark::marked_bytes))]
fn mark(code: Stretch<'_>) -> u64
    ensures { (result ≡ mark_of code.entry.text.now code.entry.from (code.entry.to - code.entry.from)) × (result < marks_below) }
{
    let k = (code.to - code.from).min(Code::MOST);
    let m = blocks(code.text, code.from, k, k.saturating_sub(1) / 8);
    let e = end_words(code.text, code.from, k);
    let z = mixed(m, e.first, e.last);
    8388608 * (z.a + z.c) + (z.b + z.d)
}

// The slot that a number on a mark's way stands for.
#[tactic(auto, unfolding(crate::specs::Index::slot_for))]
fn place(x: u64) -> usize
    ensures { (result ≡ slot_for x) × (result < slot_count) }
{
    (x / 8388608 % 2048) as usize
}

// The next number on a mark's way.
#[tactic(auto, unfolding(crate::specs::Index::onward_of))]
fn onward(x: u64) -> u64
    requires { x < marks_below }
    ensures { (result ≡ onward_of x) × (result < marks_below) }
{
    33550337 * (x % 2147483648) + x / 2147483648
}

// Whether stop j, whose code stands in the text, has the code.
#[tactic(auto, unfolding(crate::specs::Lookup::has_code))]
pub fn has_code(text: &[u8], codes: &[u32], j: usize, code: Stretch<'_>) -> bool
    requires { Placed text.now codes.now (j + 1) }
    ensures { result ≡ has_code text.now codes.now code.entry.text.now code.entry.from (code.entry.to - code.entry.from) j }
{
    let n = code.to - code.from;
    let own = code_at(codes, j);
    own.length as usize == n && words::same(text, own.start as usize, code.text, code.from, n)
}

impl<'a> Known<'a> {
    // Whether an entry is that of a stop with the code, whose mark is m.
    #[tactic(auto, unfolding(crate::specs::Index::is_entry))]
    fn is_entry(self, e: u64, m: u64, code: Stretch<'_>) -> bool
        requires { (0 < e % 256) × (e % 256 ≤ self.stops) }
        ensures { result ≡ is_entry self.entry.text.now self.entry.codes.now e m code.entry.text.now code.entry.from (code.entry.to - code.entry.from) }
    {
        e / 256 == m && has_code(self.text, self.codes, (e % 256 - 1) as usize, code)
    }

    // Along the way of a code's mark: up to the stop with the code, or up to the first empty slot. Behind the last slot of the way the plain search
    // decides.
    #[tactic(auto, using(crate::specs::IndexLaws::walk_turns))]
    fn walk(self, slots: &[u64], code: Stretch<'_>) -> Walked
        requires { CodesIndexed self.text.now self.codes.now self.stops slots.now }
        ensures stop_value { result.stop ≡
            stop_named self.entry.text.now self.entry.codes.now self.entry.stops code.entry.text.now code.entry.from (code.entry.to - code.entry.from) }
        ensures mark_value { (result.mark ≡ mark_of code.entry.text.now code.entry.from (code.entry.to - code.entry.from)) × (result.mark < marks_below) }
        ensures vacant { self.entry.stops ≤ result.stop → Vacant slots.now result.mark result.place }
    {
        let m = mark(code);
        let mut x = m;
        for _ in 0..PROBES {
            let p = place(x);
            let e = slots[p];
            if e == 0 {
                return Walked {
                    stop: self.stops,
                    mark: m,
                    place: p,
                };
            }
            if self.is_entry(e, m, code) {
                return Walked {
                    stop: (e % 256 - 1) as u32,
                    mark: m,
                    place: SLOTS,
                };
            }
            x = onward(x);
        }
        Walked {
            stop: self.scan(code),
            mark: m,
            place: SLOTS,
        }
    }

    // The number of the stop with the code, or `stops`, through the index of the codes.
    pub fn find(self, slots: &[u64], code: Stretch<'_>) -> u32
        requires codes_indexed { CodesIndexed self.text.now self.codes.now self.stops slots.now }
        ensures { result ≡
            stop_named self.entry.text.now self.entry.codes.now self.entry.stops code.entry.text.now code.entry.from (code.entry.to - code.entry.from) }
    {
        self.walk(slots, code).stop
    }

    // The number of the stop with the code, or `stops`, without an index.
    #[tactic(auto, using(crate::specs::LookupLaws::scan_turns))]
    pub fn scan(self, code: Stretch<'_>) -> u32
        ensures { result ≡
            stop_named self.entry.text.now self.entry.codes.now self.entry.stops code.entry.text.now code.entry.from (code.entry.to - code.entry.from) }
    {
        for k in (0..self.stops).rev() {
            if has_code(self.text, self.codes, k as usize, code) {
                return k;
            }
        }
        self.stops
    }
}

// A stop, put into the first empty slot on its mark's way. Where there is none the plain search finds it.
fn stand(slots: &mut [u64], m: u64, p: usize, stop: u32)
    requires slots_len { (length slots.old ≡ slot_count) × (m < marks_below) × (stop < most_stops) }
    requires vacant { Vacant slots.old m p }
    ensures { Stood slots.old slots.new m stop }
{
    if p < SLOTS {
        slots[p] = 256 * m + (stop + 1) as u64;
    }
}

// The code of the next stop, put into the list and into the index.
#[tactic(auto, using(crate::specs::EnterLaws::enterable_new))]
pub fn enter(s: &[u8], codes: &mut [u32], slots: &mut [u64], stops: u32, start: usize, n: usize)
    requires codes_indexed { CodesIndexed s.now codes.old stops slots.old }
    requires enterable { Enterable s.now codes.old stops start n }
    ensures codes_after { codes.new ≡ put_code codes.old stops start n }
    ensures codes_indexed_2 { CodesIndexed s.now codes.new (stops + 1) slots.new }
{
    let j = stops as usize;
    let code = Stretch {
        text: s,
        from: start,
        to: start + n,
    };
    let w = Known {
        text: s,
        codes,
        stops,
    }
    .walk(slots, code);
    codes[2 * j] = start as u32;
    codes[2 * j + 1] = n as u32;
    stand(slots, w.mark, w.place, stops);
}
