// What the programs on stored vectors share: a case read from a source, such as standard input, counts in tables, and numbers printed to a writer. A case is
// a heading of numbers of four bytes, low first, and then as many bytes as the heading's first number says.
#![tactic(auto)]

ghost use Rattle.std.specs.Prelude.{◌≡◌, ◌+◌, ◌%◌, ◌^◌, ◌<◌, ◌≤◌, [], ◌∷◌, length, take, replicate, slice_index, unsigned_abs, IfSome};
ghost use Rattle.io.specs.Counts.{IsPrefixLen};
ghost use Rattle.stored.specs.Number.{number_at};
ghost use Rattle.cases.specs.Cases.{IsCase, taken, IsTaken, nonzeros, DigitsPrinted};

use output::write_whole;
use std::io::{Read, Write};

// ---- a case

// The byte at this place; beyond the list 0.
fn byte_at(bytes: &[u8], at: usize) -> u32
    ensures { (result ≡ slice_index bytes.now at) × (result < 256) }
{
    if at < bytes.len() {
        u32::from(bytes[at])
    } else {
        0
    }
}

// The number of four bytes, low first, from this place on. Beyond the list each byte is 0.
pub fn number(bytes: &[u8], at: usize) -> u32
    ensures { result ≡ number_at 4 bytes.now at }
{
    if bytes.len() <= at {
        return 0;
    }
    let low = byte_at(bytes, at) + byte_at(bytes, at + 1) * 256;
    let high = byte_at(bytes, at + 2) + byte_at(bytes, at + 3) * 256;
    low + high * 65536
}

// How many bytes a case has behind its heading, and the heading.
#[derive(Clone, Copy)]
pub struct Case {
    pub size: usize,
    pub heading: [u8; 44],
}

// Reads so many bytes to the front of the space, or as many as it has room for; how many it gets.
fn fill<R: Read>(source: &mut R, space: &mut [u8], size: usize) -> usize
    ensures { IsPrefixLen result space.new }
{
    let room = size.min(space.len());
    input::read_full(source, &mut space[..room])
}

// Reads a heading of so many bytes, at most 44, and the bytes behind it to the front of the space; nothing where no whole case can be read.
pub fn read_case<R: Read>(source: &mut R, heading_size: usize, space: &mut [u8]) -> Option<Case>
    ensures { IfSome result (λ case. IsCase space.new case) }
{
    let mut heading = [0u8; 44];
    if fill(source, &mut heading, heading_size) < heading_size {
        return None;
    }
    let size = fill(source, space, number(&heading, 0) as usize);
    if size != number(&heading, 0) as usize {
        return None;
    }
    Some(Case { size, heading })
}

// ---- tables

// So many bytes of a table, or all where it has fewer.
pub fn bytes_within(count: usize, table: &[u8]) -> usize
    ensures { IsTaken count table.now result }
{
    count.min(table.len())
}

// How many elements of a table are lent: as many as the heading gives at this place, or all where it has fewer.
pub fn words_lent(heading: &[u8], at: usize, table: &[u32]) -> usize
    ensures { IsTaken (number_at 4 heading.now at) table.now result }
{
    (number(heading, at) as usize).min(table.len())
}

pub fn entries_lent(heading: &[u8], at: usize, table: &[u16]) -> usize
    ensures { IsTaken (number_at 4 heading.now at) table.now result }
{
    (number(heading, at) as usize).min(table.len())
}

pub fn bytes_lent(heading: &[u8], at: usize, table: &[u8]) -> usize
    ensures { IsTaken (number_at 4 heading.now at) table.now result }
{
    (number(heading, at) as usize).min(table.len())
}

// 1 for a number that is not 0, and 0 for 0.
fn one_if(value: u32) -> usize
    ensures { result ≡ nonzeros (value ∷ []) }
{
    if value == 0 { 0 } else { 1 }
}

// How many numbers of a table are not 0.
pub fn nonzero_words(table: &[u32]) -> usize
    ensures { result ≡ nonzeros table.now }
{
    let mut count = 0;
    for word in table {
        count += one_if(*word);
    }
    count
}

pub fn nonzero_entries(table: &[u16]) -> usize
    ensures { result ≡ nonzeros table.now }
{
    let mut count = 0;
    for entry in table {
        count += one_if(u32::from(*entry));
    }
    count
}

pub fn nonzero_bytes(table: &[u8]) -> usize
    ensures { result ≡ nonzeros table.now }
{
    let mut count = 0;
    for byte in table {
        count += one_if(u32::from(*byte));
    }
    count
}

// `sum` and how many of the lent numbers of a table are not 0, modulo 2^64.
pub fn add_nonzero(sum: u64, heading: &[u8], at: usize, table: &[u32]) -> u64
    ensures { result ≡ (sum + nonzeros (take (taken (number_at 4 heading.now at) table.now) table.now)) % 2 ^ 64 }
{
    let size = words_lent(heading, at, table);
    std::num::wrapping_add_u64(sum, nonzero_words(&table[..size]) as u64)
}

// Room for a table's entries, its final bytes and one work table, none of it 0.
pub fn entry_room() -> [u16; 65536]
    ensures { (65536 ≡ length result) × (result ≡ replicate 65536 7) }
{
    [7; 65536]
}

pub fn byte_room() -> [u8; 4112]
    ensures { (4112 ≡ length result) × (result ≡ replicate 4112 7) }
{
    [7; 4112]
}

pub fn work_room() -> [u32; 4112]
    ensures { (4112 ≡ length result) × (result ≡ replicate 4112 7) }
{
    [7; 4112]
}

// ---- numbers printed to a writer: no contract can say what reaches standard output, so an answer says how much was handed over

// The magnitude of a number.
fn magnitude(value: i64) -> u64
    ensures { result ≡ unsigned_abs value }
{
    value.unsigned_abs()
}

// Prints a number and what stands after it; how many digits it has, or 0 where a write did not take all of its bytes.
pub fn print<W: Write>(out: &mut W, n: u64, end: &[u8]) -> usize
    ensures { DigitsPrinted n result }
{
    let mut text = [0u8; 20];
    let digits = io::decimal(n, &mut text);
    if !write_whole(out, &text[..digits]) {
        return 0;
    }
    if write_whole(out, end) { digits } else { 0 }
}

// The same for a signed number, whose digits stand behind `-` where it is below 0.
pub fn print_signed<W: Write>(out: &mut W, value: i64, end: &[u8]) -> usize
    ensures { DigitsPrinted (unsigned_abs value) result }
{
    if value < 0 && !write_whole(out, b"-") {
        return 0;
    }
    print(out, magnitude(value), end)
}

// Prints numbers, each with a space after it; how many there are, or as many as stand before the first of which a write did not take all bytes.
pub fn print_entries<W: Write>(out: &mut W, table: &[u16]) -> usize
    ensures { result ≤ length table.now }
{
    for (i, entry) in table.iter().enumerate() {
        if print(out, u64::from(*entry), b" ") == 0 {
            return i;
        }
    }
    table.len()
}

pub fn print_bytes<W: Write>(out: &mut W, table: &[u8]) -> usize
    ensures { result ≤ length table.now }
{
    for (i, byte) in table.iter().enumerate() {
        if print(out, u64::from(*byte), b" ") == 0 {
            return i;
        }
    }
    table.len()
}
