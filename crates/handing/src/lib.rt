#![tactic(auto)]

// Bytes handed on to standard output, and bytes read. How many were written, and that a write failed, is told by values that no other crate can make:
// their fields are private, and only `hand` makes more of them.
ghost use Rattle.std.specs.Prelude.{◌≡◌, ◌+◌, ◌≤◌, length};
ghost use Rattle.handing.specs.Handing.{most_bytes, handed_as, HandedOn};

use std::io::Read;

// So many bytes were handed on, and all of them written.
#[derive(Drop)]
pub struct Written {
    bytes: usize,
}

// So many bytes were written, and then a write of so many more failed.
#[derive(Drop)]
pub struct Failure {
    before: usize,
    bytes: usize,
}

impl Written {
    pub fn none() -> Written
        ensures { result ≡ record { bytes = 0 } }
    {
        Written { bytes: 0 }
    }
}

// What n bytes more come to: they were taken, or not.
fn handed_as(before: Written, n: usize, taken: bool) -> Result<Written, Failure>
    requires { before.bytes + n ≤ most_bytes }
    ensures { result ≡ handed_as before n taken }
{
    if taken {
        Ok(Written {
            bytes: before.bytes + n,
        })
    } else {
        Err(Failure {
            before: before.bytes,
            bytes: n,
        })
    }
}

// The first n bytes of the buffer go to standard output, after those that were written before. `Err` tells of a write that failed.
pub fn hand(rt: &HostRuntime, before: Written, out: &[u8], n: usize) -> Result<Written, Failure>
    requires n_in_bounds { n ≤ length out.now }
    requires n_bound { before.bytes + n ≤ most_bytes }
    ensures { HandedOn before n result }
{
    let taken = rt.write_all(&out[..n]).is_ok();
    handed_as(before, n, taken)
}

// Reads until the buffer is full, the input ends or a read fails, and answers how many bytes it put at the start of the buffer.
pub fn read_full(input: &mut impl Read, buf: &mut [u8]) -> usize
    ensures { result ≤ length buf.new }
{
    let mut done = 0;
    // not a counted loop: a read puts as many bytes as it has
    while done < buf.len() {
        match input.read(&mut buf[done..]) {
            Ok(0) => break,
            Ok(n) => done += n,
            Err(_) => break,
        }
    }
    done
}
