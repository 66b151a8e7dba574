// Words of a text: where a byte next stands, what a stretch begins with or is, a number, a code.
#![tactic(auto)]

ghost use Rattle.std.specs.Prelude.{◌≡◌, ◌+◌, ◌-◌, ◌≤◌, ◌<◌, length};
ghost use Rattle.std.specs.List.{list_all};
ghost use Rattle.loops.specs.Every.{same_b};
ghost use Rattle.kinds.specs.Kinds.{is_code_byte};
ghost use Rattle.words.specs.Words.{Sought, begins_b, is_word_b, number_at, is_code};
ghost use Rattle.words.specs.Digits.{digits_at};

use kinds::{Code, Reason};

// A number, and where its field ends: at the next space, or at the end of the line.
#[derive(Clone, Copy)]
pub struct Number {
    pub value: u32,
    pub end: usize,
}

// A stretch of a text, from `from` up to, not including, `to`. Every place in it is counted from the text's first byte.
#[derive(Clone, Copy)]
pub struct Stretch<'a> {
    pub text: &'a [u8],
    pub from: usize,
    pub to: usize,
    ghost low: { from ≤ to },
    ghost high: { to ≤ length text.now },
}

// Whether n bytes of s from a on are those of t from b on.
#[tactic(auto, using(crate::specs::StretchLaws::stretch_same))]
pub fn same(s: &[u8], a: usize, t: &[u8], b: usize, n: usize) -> bool
    requires { (a + n ≤ length s.now) × (b + n ≤ length t.now) }
    ensures { result ≡ same_b s.now a t.now b n }
{
    s[a..a + n] == t[b..b + n]
}

// Whether the word stands from `at` on. Byte by byte, where `same` compares slices: for a word of a few bytes that is known when a program is built, a call
// takes longer than the bytes.
#[tactic(auto, using(loops::specs::EveryLaws::same_none, loops::specs::EveryLaws::same_more, loops::specs::EveryLaws::same_fails))]
fn stands(text: &[u8], at: usize, word: &[u8]) -> bool
    requires { at + length word.now ≤ length text.now }
    ensures { result ≡ same_b text.now at word.now 0 (length word.now) }
{
    for k in 0..word.len() {
        if text[at + k] != word[k] {
            return false;
        }
    }
    true
}

// The value of n bytes, or none where they are not all digits. (std's `parse` takes a whole `&str`, a sign and leading zeros too.)
#[tactic(auto, using(crate::specs::DigitsLaws::digits_turns))]
fn digits(s: &[u8], from: usize, n: usize) -> Option<u32>
    requires { (from + n ≤ length s.now) × (n ≤ 5) }
    ensures { result ≡ digits_at s.now from n }
{
    let mut value = 0;
    for k in 0..n {
        let b = s[from + k];
        if !b.is_ascii_digit() {
            return None;
        }
        value = 10 * value + (b - b'0') as u32;
    }
    Some(value)
}

// The next place of the byte x from `from` on, or `to`. Not inlined: with its callers' sums in the loop each byte takes eight instructions in place of five.
#[tactic(auto, using(crate::specs::WordsLaws::seek_turns))]
#[inline(never)]
fn seek_in(text: &[u8], from: usize, to: usize, x: u8) -> usize
    requires { (from ≤ to) × (to ≤ length text.now) }
    ensures { Sought x text.now from to result }
{
    for k in from..to {
        if text[k] == x {
            return k;
        }
    }
    to
}

// Whether each byte is one of a code.
fn all_code(s: &[u8]) -> bool
    ensures { result ≡ list_all is_code_byte s.now }
{
    s.iter().all(|b| Code::is_byte(*b))
}

impl<'a> Stretch<'a> {
    // The part behind place k.
    pub fn after(self, k: usize) -> Stretch<'a>
        requires { k < self.to }
        ensures { (result.text.now ≡ self.entry.text.now) × (result.from ≡ k + 1) × (result.to ≡ self.entry.to) }
    {
        Stretch {
            text: self.text,
            from: k + 1,
            to: self.to,
        }
    }

    // The next place of the byte x, or the end of the stretch. (No `Option`: a field ends there in either case.)
    pub fn seek(self, x: u8) -> usize
        ensures { Sought x self.entry.text.now self.entry.from self.entry.to result }
    {
        seek_in(self.text, self.from, self.to, x)
    }

    // Whether the stretch begins with the word.
    #[tactic(auto, unfolding(crate::specs::Words::begins_b))]
    pub fn begins(self, word: &[u8]) -> bool
        ensures { result ≡ begins_b self.entry.text.now self.entry.from self.entry.to word.now }
    {
        word.len() <= self.to - self.from && stands(self.text, self.from, word)
    }

    // Whether the stretch is the word.
    #[tactic(auto, unfolding(crate::specs::Words::is_word_b))]
    pub fn is_word(self, word: &[u8]) -> bool
        ensures { result ≡ is_word_b self.entry.text.now self.entry.from self.entry.to word.now }
    {
        self.to - self.from == word.len() && stands(self.text, self.from, word)
    }

    // The number with which the stretch begins, up to the next space or the end of the stretch.
    #[tactic(auto, unfolding(crate::specs::Words::number_at), using(crate::specs::DigitsLaws::number_forms))]
    pub fn number(self) -> Result<Number, Reason>
        ensures { result ≡ number_at self.entry.text.now self.entry.from self.entry.to }
    {
        let end = self.seek(b' ');
        let n = end - self.from;
        if n == 0 || 5 < n || (self.text[self.from] == b'0' && n != 1) {
            return Err(Reason::LineShape);
        }
        let value = digits(self.text, self.from, n).ok_or(Reason::LineShape)?;
        Ok(Number { value, end })
    }

    // Whether the stretch is a code.
    #[tactic(auto, unfolding(crate::specs::Words::is_code), using(crate::specs::StretchLaws::stretch_all))]
    pub fn is_code(self) -> bool
        ensures { result ≡ is_code self.entry.text.now self.entry.from (self.entry.to - self.entry.from) }
    {
        let n = self.to - self.from;
        Code::is_length(n) && all_code(&self.text[self.from..self.from + n])
    }
}
