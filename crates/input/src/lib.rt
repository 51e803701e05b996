// Reads a whole input into lent bytes. "a file it cannot read counts as empty" (document 02, S-1): where a read fails, nothing counts as read.
#![tactic(auto)]

ghost use Rattle.std.specs.Prelude.{◌≡◌, ◌≤◌, false, length, take, min, pos, negsuc, ◌≤ℤ◌, IsNone, IfSome};
ghost use Rattle.std.specs.Str.{IsUtf8};
ghost use Rattle.io.specs.Counts.{IsPrefixLen};
ghost use Rattle.input.specs.Input.{answer_of, after_read, IsInput, ReadsFrom, ReadsFull, TakesFrom};

use std::env::{Env, FillError};
use std::io::Read;
use std::rt::Files;
use std::{fs, str};

// ---- one read

// What a read answers: the number of bytes that it gave, 0 at the end of the input, or -1 where it failed.
fn answer_of(got: std::io::Result<usize>) -> isize
    ensures { result ≡ answer_of got }
{
    match got {
        Ok(count) => count.min(isize::MAX as usize) as isize,
        Err(_) => -1,
    }
}

// One read from a source. One that is missing, such as a file that cannot be opened, fails at each read.
pub fn read_answer<R: Read>(source: &mut Option<R>, bytes: &mut [u8]) -> isize
    ensures within { result ≤ℤ pos (length bytes.new) }
    ensures read { ReadsFrom R.remaining source.old source.new bytes.new result }
{
    match source {
        Some(reader) => answer_of(reader.read(bytes)),
        None => -1,
    }
}

// Puts the argument at this place to the front of the bytes; its length, if it is given. One that is longer than its room counts as one without bytes.
pub fn take_argument<E: Env>(rt: &E, place: usize, bytes: &mut [u8]) -> Option<usize>
    ensures within { IfSome result (λ size. IsPrefixLen size bytes.new) }
{
    match rt.arg(place, bytes) {
        Ok(size) => Some(size),
        Err(FillError::TooLong) => Some(0),
        Err(FillError::NotPresent) => None,
    }
}

// Opens the file with this path. A path that is no UTF-8 text names none.
pub fn open_path<F: Files>(files: &F, path: &[u8]) -> Option<F::File>
    ensures { ¬ (IsUtf8 path.now) → IsNone result }
{
    match str::from_utf8(path) {
        Ok(text) => fs::open(files, text).ok(),
        Err(_) => None,
    }
}

// Opens the file that the argument at this place names, for reading. A missing argument names none, nor does one that is longer than a path. What an argument
// is and which file has its name no contract can say.
pub fn open_argument<R: Env + Files>(rt: &R, place: usize) -> Option<R::File> {
    let mut path = [0u8; 4096];
    let size = take_argument(rt, place, &mut path)?;
    open_path(rt, &path[..size])
}

// Reads to the front of the bytes until they are full, the input ends or a read fails; how many bytes it gets.
pub fn read_full<R: Read>(source: &mut R, bytes: &mut [u8]) -> usize
    ensures { ReadsFull (R.remaining source.old) (R.remaining source.new) bytes.new result }
{
    let mut size = 0;
    while size < bytes.len() {
        match source.read(&mut bytes[size..]) {
            Ok(0) => break,
            Ok(count) => size += count,
            Err(_) => break,
        }
    }
    size
}

// ---- a whole input

// How many bytes were read, and whether a read failed.
#[derive(Clone, Copy)]
pub struct Input {
    pub size: usize,
    pub failed: bool,
}

// The same after one read, and whether there may be more to read.
#[derive(Clone, Copy)]
pub struct Progress {
    pub size: usize,
    pub failed: bool,
    pub more: bool,
}

// What one read, after `size` bytes of so much room, comes to.
fn after_read(got: isize, size: usize, room: usize) -> Progress
    requires { size ≤ room }
    ensures { result ≡ after_read got size room }
{
    if got < 0 {
        return Progress {
            size: 0,
            failed: true,
            more: false,
        };
    }
    let count = (got as usize).min(room - size);
    Progress {
        size: size + count,
        failed: false,
        more: 0 < count.min(room - size - count),
    }
}

// Reads until the bytes are full, the input ends or a read fails.
pub fn read_input<R: Read>(source: &mut Option<R>, bytes: &mut [u8]) -> Input
    ensures input { IsInput (length bytes.old) result }
    ensures next { result.failed ≡ false → length bytes.new ≤ 9223372036854775807 → TakesFrom R.remaining source.old source.new (take result.size bytes.new) }
{
    let mut size = 0;
    let mut failed = false;
    let mut more = 0 < bytes.len();
    while more {
        let got = read_answer(source, &mut bytes[size..]);
        let after = after_read(got, size, bytes.len());
        size = after.size;
        failed = after.failed;
        more = after.more;
    }
    Input { size, failed }
}
