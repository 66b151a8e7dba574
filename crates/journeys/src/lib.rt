// The meaning of the kiosk's work is in specs/: definitions that a reader must believe, and their laws. These are the types
// of it that code takes apart.
#![tactic(auto)]

// A ride leaves the stop `from` at minute `dep` and arrives at the stop `to` at minute `arr`.
#[derive(Clone, Copy, PartialEq, Eq)]
pub struct Ride {
    pub from: u16,
    pub to: u16,
    pub dep: u16,
    pub arr: u16,
}

// What is asked, with its minutes: early(t), late(t), short(t, t2).
#[derive(Clone, Copy)]
pub enum Criterion {
    Early(u16),
    Late(u16),
    Short(u16, u16),
}
