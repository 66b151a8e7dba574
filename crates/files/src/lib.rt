#![tactic(auto)]

// Files that a program's arguments name: read whole into a lent buffer, or written under another name first, so that a broken write never leaves half
// a file. Where a file cannot be used standard output says so, and standard error says why, in the system's words. No contract can say what a file
// holds or what is done to it. What is said: nothing is read or written outside the buffers, under which name a file is written first, when it counts as
// whole, and that only a whole file gets its own name.
ghost use Rattle.std.specs.Prelude.{◌+◌, ◌≤◌, ◌<◌, ◌≡◌, false, IfOk, IfSome, Ok, eqb, length};
ghost use Rattle.printed.specs.Wrote.{Wrote};
ghost use Rattle.files.specs.Files.{IsPrefixLen, ReadWithin, PartWithin, two_digits, part_name, part_more, most_parts, name_most, is_name, is_whole};

use printed::put_part;
use std::env::{Env, FillError};
use std::fs::{File, OpenOptions};
use std::io::{Error, ErrorKind, Read, Write};
use std::{fs, io, str};
use words::Stretch;

// Why there is no file to be written under a first name: all names are taken, or it cannot be made.
#[derive(Clone, Copy)]
enum Unmade {
    Taken,
    Failed,
}

// So many first names a file can have.
const PARTS: u8 = 100;

// As long as the system takes a file's name, with a zero byte behind it.
const PATH_ROOM: usize = 4096;

// The longest name that a file to be written may have: ".part", two digits and a zero byte follow it.
const NAME_MOST: usize = PATH_ROOM - 8;

pub fn name_most() -> usize
    ensures value { result ≡ NAME_MOST }
    ensures value_2 { result ≡ name_most }
{
    NAME_MOST
}

// A line of three pieces. Where standard output takes no more, there is nobody to tell.
fn say(rt: &HostRuntime, first: &[u8], name: &[u8], last: &[u8]) {
    let _ = rt.write_all(first);
    let _ = rt.write_all(name);
    let _ = rt.write_all(last);
    let _ = rt.write_all(b"\n");
}

// The first n bytes of what was made ready, on standard output.
pub fn tell(rt: &HostRuntime, out: &[u8], n: usize)
    requires { n ≤ length out.now }
{
    let _ = rt.write_all(&out[..n]);
}

// ---- Why a file cannot be used.

// Where the system's words end: the library's text of an error has the error's number behind them.
fn words_end(text: &[u8], n: usize) -> usize
    requires { n ≤ length text.now }
    ensures { result ≤ n }
{
    for k in 0..n {
        let rest = Stretch {
            text,
            from: k,
            to: n,
        };
        if rest.begins(b" (os error ") {
            return k;
        }
    }
    n
}

// The words for the error, as far as there is room.
fn put_why(why: &Error, text: &mut [u8]) -> usize
    ensures { result ≤ length text.new }
{
    let room = text.len();
    let mut rest: &mut [u8] = &mut text[..];
    let _ = write!(rest, "{why}");
    let n = room - rest.len().min(room);
    words_end(text, n)
}

// A line on standard error: what failed, a colon and why.
fn fail(rt: &HostRuntime, what: &[u8], why: &Error) {
    let mut text = [0u8; 64];
    let n = put_why(why, &mut text);
    let to = rt.stderr();
    let _ = Print::write_all(&to, what);
    let _ = Print::write_all(&to, b": ");
    let _ = Print::write_all(&to, &text[..n]);
    let _ = Print::write_all(&to, b"\n");
}

// A file's name as the library takes it.
fn as_name(path: &[u8]) -> io::Result<&str> {
    str::from_utf8(path).map_err(|_| Error::new(ErrorKind::InvalidInput, "the name is not UTF-8"))
}

// ---- Reading.

// Nothing more can be read because the file has ended; or else why a read fails.
fn has_ended(file: &mut File) -> io::Result<()> {
    let mut more = [0u8; 1];
    if file.read(&mut more)? == 0 {
        return Ok(());
    }
    Err(Error::from(ErrorKind::Interrupted))
}

// Reads to the end of the file, or until the buffer is full.
fn read_all(file: &mut File, buf: &mut [u8]) -> io::Result<usize>
    ensures { IfOk result (λ n. n ≤ length buf.new) }
{
    let n = handing::read_full(file, buf);
    if n < buf.len() {
        has_ended(file)?;
    }
    Ok(n)
}

// Opens the file for reading.
fn open_read(rt: &HostRuntime, path: &[u8]) -> io::Result<File> {
    File::open(rt, as_name(path)?)
}

// What a call on the file of this name gave; `None` where it failed, and it was told why.
fn or_told<T: Drop>(rt: &HostRuntime, what: &[u8], path: &[u8], given: io::Result<T>) -> Option<T>
    ensures { IfSome result (λ x. given ≡ Ok x) }
{
    match given {
        Ok(x) => Some(x),
        Err(why) => {
            fail(rt, path, &why);
            say(rt, what, path, b"");
            None
        }
    }
}

// The file of this name, into the buffer: so many bytes, at most as many as the buffer has. A file that fills it may be longer. `None`: the file cannot be
// used, and it was told why.
fn read(rt: &HostRuntime, path: &[u8], buf: &mut [u8]) -> Option<usize>
    ensures { ReadWithin (length buf.new) result }
{
    if path.is_empty() {
        say(
            rt,
            b"cannot open ",
            path,
            b": the name is empty or too long",
        );
        return None;
    }
    let mut file = or_told(rt, b"cannot open ", path, open_read(rt, path))?;
    or_told(rt, b"cannot read ", path, read_all(&mut file, buf))
}

// Says that the file is longer than it may be.
fn say_more(rt: &HostRuntime, name: &[u8], most: u32)
    requires { length name.now ≤ 4096 }
{
    let mut out = [0u8; PATH_ROOM + report::LINE_ROOM];
    let n = report::more_line(&mut out, 0, name, most);
    tell(rt, &out, n);
}

// The file that argument i names, into the buffer. One that has more bytes than it may have is told of; the buffer has room for one byte more, which
// tells it from a file that fits. `None`: the file cannot be used, and it was told why.
pub fn read_named(rt: &HostRuntime, i: usize, most: u32, buf: &mut [u8]) -> Option<usize>
    ensures { ReadWithin (length buf.new) result }
{
    let mut path = name_room();
    let n = arg(rt, i, &mut path);
    let read = read(rt, &path[..n], buf);
    if let Some(m) = read {
        if (most as usize) < m {
            say_more(rt, &path[..n], most);
        }
    }
    read
}

// ---- Writing.

// The number's two digits, the first one 0 too.
fn put_two(name: &mut [u8], at: usize, k: u8) -> usize
    requires at_in_bounds { at + 2 ≤ length name.old }
    requires k_lt_most_parts { k < most_parts }
    ensures { Wrote name.old at (two_digits k) name.new result }
{
    name[at] = b'0' + k / 10;
    name[at + 1] = b'0' + k % 10;
    at + 2
}

// The name under which a file is written first: its own, ".part" and the number's two digits.
fn part_name(path: &[u8], k: u8, name: &mut [u8]) -> usize
    requires part_more_in_bounds { length path.now + part_more ≤ length name.old }
    requires k_lt_most_parts { k < most_parts }
    ensures wrote { Wrote name.old 0 (part_name path.now k) name.new result }
    ensures prefix_len { IsPrefixLen result name.new }
{
    let a = put_part(name, 0, path, 0, path.len());
    let b = put_part(name, a, b".part", 0, 5);
    put_two(name, b, k)
}

// Makes the file of this first name, where there is none.
fn make_one(rt: &HostRuntime, path: &[u8], k: u8) -> io::Result<File>
    requires path_len_bound { length path.now ≤ name_most }
    requires k_lt_most_parts { k < most_parts }
{
    let mut name = [0u8; PATH_ROOM];
    let n = part_name(path, k, &mut name);
    OpenOptions::new()
        .write(true)
        .create_new(true)
        .open(rt, as_name(&name[..n])?)
}

// Makes a file under the first of its first names that is free. Another build may be writing the others, or a build that was broken off left them.
// `Ok` has its number, and the open file.
fn make_part(rt: &HostRuntime, path: &[u8]) -> Result<(u8, File), Unmade>
    requires { length path.now ≤ name_most }
    ensures { PartWithin result }
{
    for k in 0..PARTS {
        match make_one(rt, path, k) {
            Ok(file) => return Ok((k, file)),
            Err(why) => {
                if why.kind() != ErrorKind::AlreadyExists {
                    fail(rt, path, &why);
                    return Err(Unmade::Failed);
                }
            }
        }
    }
    Err(Unmade::Taken)
}

// A file is whole where all of its bytes were taken, are kept, and it was closed.
fn is_whole(written: bool, kept: bool, closed: bool) -> bool
    ensures { result ≡ is_whole written kept closed }
{
    written && kept && closed
}

// Writes all of the bytes, sees that they are kept, and closes the file. Whether it is whole; the library tells nothing of a close that fails. Where it
// is not, standard error says why, by the last call that failed.
fn write_all(rt: &HostRuntime, path: &[u8], mut file: File, bytes: &[u8]) -> bool {
    let written = file.write_all(bytes);
    let kept = file.sync_all();
    drop(file);
    if let Err(why) = kept {
        fail(rt, path, &why);
    } else if let Err(why) = written {
        fail(rt, path, &why);
    }
    is_whole(written.is_ok(), kept.is_ok(), true)
}

// Removes the file of this first name. Where that fails it stays, and the next build passes over it.
fn remove(rt: &HostRuntime, part: &[u8]) {
    if let Ok(name) = as_name(part) {
        let _ = fs::remove_file(rt, name);
    }
}

// The file of the first name gets its own.
fn rename(rt: &HostRuntime, part: &[u8], path: &[u8]) -> io::Result<()> {
    fs::rename(rt, as_name(part)?, as_name(path)?)
}

// Only a whole file gets its own name; any other is removed.
fn name_whole(rt: &HostRuntime, part: &[u8], path: &[u8], whole: bool) -> bool
    ensures { whole ≡ false → result ≡ false }
{
    if !whole {
        remove(rt, part);
        say(rt, b"cannot write ", path, b"");
        return false;
    }
    if let Err(why) = rename(rt, part, path) {
        fail(rt, path, &why);
        remove(rt, part);
        say(rt, b"cannot make ", path, b"");
        return false;
    }
    true
}

// The bytes, under first name k; and then under the file's own.
fn write_part(rt: &HostRuntime, path: &[u8], k: u8, file: File, bytes: &[u8]) -> bool
    requires path_len_bound { length path.now ≤ name_most }
    requires k_lt_most_parts { k < most_parts }
{
    let mut name = [0u8; PATH_ROOM];
    let n = part_name(path, k, &mut name);
    let whole = write_all(rt, path, file, bytes);
    name_whole(rt, &name[..n], path, whole)
}

// Whether a file can be written under this name: it has bytes, and with those of a first name it is no longer than a name may be.
fn is_name(path: &[u8]) -> bool
    ensures { result ≡ is_name (length path.now) }
{
    !path.is_empty() && path.len() <= NAME_MOST
}

// The bytes, as the file of this name. They are written under another name, which no other build has.
pub fn write(rt: &HostRuntime, path: &[u8], bytes: &[u8]) -> bool
    ensures { is_name (length path.now) ≡ false → result ≡ false }
{
    if !is_name(path) {
        say(
            rt,
            b"cannot make ",
            path,
            b": the name is empty or too long",
        );
        return false;
    }
    match make_part(rt, path) {
        Ok((k, file)) => write_part(rt, path, k, file, bytes),
        Err(Unmade::Taken) => {
            say(
                rt,
                b"cannot make ",
                path,
                b": files of this name with .part00 to .part99 behind it are left over; remove them",
            );
            false
        }
        Err(Unmade::Failed) => {
            say(rt, b"cannot make ", path, b"");
            false
        }
    }
}

// ---- The program's arguments.

// Room for a file's name.
pub fn name_room() -> [u8; PATH_ROOM]
    ensures { PATH_ROOM ≡ length result }
{
    [0; PATH_ROOM]
}

// Argument i at the start of the buffer, and how long it is; none, or one that is longer than the buffer, has no bytes.
pub fn arg(rt: &HostRuntime, i: usize, buf: &mut [u8]) -> usize
    ensures { IsPrefixLen result buf.new }
{
    rt.arg(i, buf).unwrap_or(0)
}

// How many arguments there are, the program's own name among them.
pub fn arg_count(rt: &HostRuntime) -> usize {
    for i in 0..usize::MAX {
        if let Err(FillError::NotPresent) = rt.arg(i, &mut []) {
            return i;
        }
    }
    usize::MAX
}

// Whether the program was started with so many words, its own name among them; else it says how it is to be started.
pub fn has_words(rt: &HostRuntime, given: usize, count: usize, usage: &[u8]) -> bool
    ensures { result ≡ eqb given count }
{
    if given == count {
        return true;
    }
    say(rt, b"usage: ", usage, b"");
    false
}
