// Reads inputs of `record_counts` from standard input and prints what it prints for each, with the input in chunks of 1, 7 and 65,536 bytes, one after the other.
// The enumerator wrote the input and what is expected: a number of four bytes, low first, for the length of an input, and then its bytes.
#![tactic(auto)]

ghost use Rattle.std.specs.Prelude.{◌<◌};

use std::io::{Read, Write};

// One input in chunks of so many bytes.
fn show_chunks<W: Write>(out: &mut W, input: &[u8], chunk: usize)
    requires { 0 < chunk }
{
    let mut sheet = [0u8; 16385];
    let mut taken = first_line::take_start();
    let mut at = 0;
    while at < input.len() {
        let end = at + chunk.min(input.len() - at);
        taken = first_line::take_chunk(taken, &input[at..end], &mut sheet);
        at = end;
    }
    show_counts::show_taken(out, taken, &sheet);
}

// One input; whether there was one.
fn one<R: Read, W: Write>(source: &mut R, out: &mut W) -> bool {
    let mut space = [0u8; 65536];
    let Some(case) = cases::read_case(source, 4, &mut space) else {
        return false;
    };
    show_chunks(out, &space[..case.size], 1);
    show_chunks(out, &space[..case.size], 7);
    show_chunks(out, &space[..case.size], 65536);
    true
}

fn main(rt: HostRuntime) {
    let mut source = rt.stdin();
    let mut out = rt.stdout();
    for _ in 0..65536u32 {
        if !one(&mut source, &mut out) {
            return;
        }
    }
}
