// What loops are made with, and no domain: a lent buffer made all zero, whatever the width of its numbers (specs/Zero.antt). What
// else a loop needs is a law, in specs/.
#![tactic(auto)]

ghost use Rattle.std.specs.Prelude.{◌≡◌, length, replicate};
ghost use Rattle.loops.specs.Zero.{nought};

// A number that buffers are lent in.
pub trait Number: Copy {
    ghost zero: { Self };

    fn zero() -> Self
        ensures { result ≡ zero };
}

impl Number for u8 {
    ghost zero = { nought };

    fn zero() -> u8 {
        0
    }
}

impl Number for u16 {
    ghost zero = { nought };

    fn zero() -> u16 {
        0
    }
}

impl Number for u32 {
    ghost zero = { nought };

    fn zero() -> u32 {
        0
    }
}

pub fn zero<T: Number>(s: &mut [T])
    ensures { s.new ≡ replicate (length s.old) T.zero }
{
    for i in 0..s.len() {
        s[i] = T::zero();
    }
}
