// Reads pairs of lines from standard input, the names of a sheet and one constraint, and prints what the constraint is read as: the
// answer's numbers and then each node's kind, value and start.
#![tactic(auto)]

use cases::print;
use std::io::Write;

fn print_flag<W: Write>(out: &mut W, flag: bool) {
    print(out, if flag { 1 } else { 0 }, b" ");
}

fn print_node<W: Write>(out: &mut W, kind: u8, value: i64, start: u16) {
    print(out, kind as u64, b" ");
    cases::print_signed(out, value, b" ");
    print(out, start as u64, b" ");
}

fn print_nodes<W: Write>(
    out: &mut W,
    kinds: &[u8; 1024],
    values: &[i64; 1024],
    starts: &[u16; 1024],
    count: usize,
) {
    let mut i = 0;
    while i < 1024 {
        if i < count {
            let kind = kinds[i];
            let value = values[i];
            let start = starts[i];
            print_node(out, kind, value, start);
        }
        i += 1;
    }
}

fn print_constraint<W: Write>(out: &mut W, names: &[u8], line: &[u8]) {
    let mut token_starts = [0usize; 1024];
    let mut kinds = [0u8; 1024];
    let mut values = [0i64; 1024];
    let mut starts = [0u16; 1024];
    let read = parse::parse_constraint(
        names,
        line,
        &mut token_starts,
        &mut kinds,
        &mut values,
        &mut starts,
        0,
        0,
    );
    print_flag(out, read.fits);
    print_flag(out, read.ok);
    print(out, read.relation as u64, b" ");
    print(out, read.left as u64, b" ");
    print(out, read.right as u64, b" ");
    print(out, read.next as u64, b" ");
    print(out, read.firsts as u64, b" ");
    print_flag(out, read.beyond);
    print_nodes(out, &kinds, &values, &starts, read.next);
    let _ = output::write_whole(out, b"\n");
}

fn print_all<W: Write>(out: &mut W, text: &[u8]) {
    let mut at = 0;
    while at < text.len() {
        let first = scan::next_line(text, at);
        let end = first.end;
        let from = first.next;
        let second = scan::next_line(text, from);
        let last = second.end;
        let next = second.next;
        print_constraint(out, &text[at..end], &text[from..last]);
        at = next;
    }
}

fn main(rt: HostRuntime) {
    let mut buffer = [0u8; 65536];
    let n = input::read_full(&mut rt.stdin(), &mut buffer);
    print_all(&mut rt.stdout(), &buffer[..n]);
}
