// Takes steps that standard input gives and prints each answer with the running place after it. The enumerator wrote the input and what is
// expected: five numbers of four bytes, low first (table length, letters, letter, state, steps), then the table's bytes, step after step.
#![tactic(auto)]

use cases::{number, print};
use std::io::{Read, Write};
use step::Place;

// The step that the heading gives, on this table.
fn answer<W: Write>(out: &mut W, heading: &[u8], table: &[u8]) {
    let place = Place {
        state: number(heading, 12),
        steps: number(heading, 16),
    };
    let after = step::step_place(place, table, number(heading, 4), number(heading, 8));
    let reached = after.place;
    print(out, after.answer as u64, b" ");
    print(out, reached.state as u64, b" ");
    print(out, reached.steps as u64, b"\n");
}

// One case; whether there was one.
fn one<R: Read, W: Write>(source: &mut R, out: &mut W) -> bool {
    let mut space = [0u8; 65536];
    let Some(case) = cases::read_case(source, 20, &mut space) else {
        return false;
    };
    answer(out, &case.heading, &space[..case.size]);
    true
}

fn main(rt: HostRuntime) {
    let mut source = rt.stdin();
    let mut out = rt.stdout();
    for _ in 0..65536u32 {
        if !one(&mut source, &mut out) {
            return;
        }
    }
}
