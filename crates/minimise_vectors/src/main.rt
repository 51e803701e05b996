// Runs `minimise` on the graphs that standard input gives, and prints each answer with every table that was lent. tests/minimise_vectors/make.py
// wrote the input and what is expected: eleven numbers of four bytes, low first (how many bytes follow, the letters, the rows, and the lengths of
// entries, flags, live, class, next, heads, links and envelopes), then the flags, and the entries with two bytes each, low first, graph after graph.
// A line has refusal and states, the entries, the flags, and how many numbers of the work tables are not 0.
#![tactic(auto)]

use cases::{add_nonzero, number, print, words_lent, work_room};
use minimise::Minimised;
use std::io::{Read, Write};

// Reads the entries from behind the flags.
fn read_entries(heading: &[u8], text: &[u8], entries: &mut [u16]) {
    let flags = cases::bytes_lent(heading, 16, text);
    let size = cases::entries_lent(heading, 12, entries);
    for (i, entry) in entries[..size].iter_mut().enumerate() {
        *entry = (number(text, flags + i * 2) % 65536) as u16;
    }
}

// Minimises the graph in parts of the tables, with the lengths that the heading gives.
fn minimise_in(
    heading: &[u8],
    entries: &mut [u16],
    flags: &mut [u8],
    live: &mut [u32],
    class: &mut [u32],
    next: &mut [u32],
    heads: &mut [u32],
    links: &mut [u32],
    envelopes: &mut [u32],
) -> Minimised {
    let n1 = cases::entries_lent(heading, 12, entries);
    let n2 = cases::bytes_lent(heading, 16, flags);
    let n3 = words_lent(heading, 20, live);
    let n4 = words_lent(heading, 24, class);
    let n5 = words_lent(heading, 28, next);
    let n6 = words_lent(heading, 32, heads);
    let n7 = words_lent(heading, 36, links);
    let n8 = words_lent(heading, 40, envelopes);
    let letters = number(heading, 4) as usize;
    let rows = number(heading, 8) as usize;
    minimise::minimise(
        &mut entries[..n1],
        &mut flags[..n2],
        letters,
        rows,
        &mut live[..n3],
        &mut class[..n4],
        &mut next[..n5],
        &mut heads[..n6],
        &mut links[..n7],
        &mut envelopes[..n8],
    )
}

// Prints the answer with the entries and the flags.
fn print_answer<W: Write>(
    out: &mut W,
    answer: Minimised,
    heading: &[u8],
    entries: &[u16],
    flags: &[u8],
) {
    let n1 = cases::entries_lent(heading, 12, entries);
    let n2 = cases::bytes_lent(heading, 16, flags);
    print(out, answer.refusal as u64, b" ");
    print(out, answer.states as u64, b" : ");
    cases::print_entries(out, &entries[..n1]);
    let _ = output::write_whole(out, b": ");
    cases::print_bytes(out, &flags[..n2]);
}

// Prints how many numbers of the work tables are not 0.
fn print_left<W: Write>(
    out: &mut W,
    heading: &[u8],
    live: &[u32; 4112],
    class: &[u32; 4112],
    next: &[u32; 4112],
    heads: &[u32; 4112],
    links: &[u32; 4112],
    envelopes: &[u32; 4112],
) {
    let first = add_nonzero(add_nonzero(0, heading, 20, live), heading, 24, class);
    let second = add_nonzero(add_nonzero(first, heading, 28, next), heading, 32, heads);
    let third = add_nonzero(
        add_nonzero(second, heading, 36, links),
        heading,
        40,
        envelopes,
    );
    let _ = output::write_whole(out, b": ");
    print(out, third, b"\n");
}

// Minimises one graph, whose flags are the first of the bytes behind the heading, and prints the answer.
fn run_case<W: Write>(out: &mut W, heading: &[u8], text: &mut [u8]) {
    let mut entries = cases::entry_room();
    let mut live = work_room();
    let mut class = work_room();
    let mut next = work_room();
    let mut heads = work_room();
    let mut links = work_room();
    let mut envelopes = work_room();
    read_entries(heading, text, &mut entries);
    let answer = minimise_in(
        heading,
        &mut entries,
        text,
        &mut live,
        &mut class,
        &mut next,
        &mut heads,
        &mut links,
        &mut envelopes,
    );
    print_answer(out, answer, heading, &entries, text);
    print_left(
        out, heading, &live, &class, &next, &heads, &links, &envelopes,
    );
}

// One case; whether there was one.
fn one<R: Read, W: Write>(source: &mut R, out: &mut W) -> bool {
    let mut space = [0u8; 65536];
    let Some(case) = cases::read_case(source, 44, &mut space) else {
        return false;
    };
    run_case(out, &case.heading, &mut space[..case.size]);
    true
}

fn main(rt: HostRuntime) {
    let mut source = rt.stdin();
    let mut out = rt.stdout();
    for _ in 0..65536u32 {
        if !one(&mut source, &mut out) {
            return;
        }
    }
}
