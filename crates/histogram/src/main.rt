// Prints how many lines of a record hold each value of each stream of a sheet: `histogram SHEET RECORD`, the names of two files. A file that cannot be read
// counts as empty. The record is read in chunks of a fixed size, so that a record of any length takes the same memory. Failed reads and writes are told on
// standard error.
#![tactic(auto)]

use reads::ReadEnd;

fn main(rt: HostRuntime) {
    let mut text = [0u8; 16385];
    let mut source = input::open_argument(&rt, 1);
    let input = input::read_input(&mut source, &mut text);
    drop(source);
    output::tell(
        &mut rt.stderr(),
        input.failed,
        "histogram: the sheet cannot be read\n",
    );
    let mut path = [0u8; 4096];
    let record = input::take_argument(&rt, 2, &mut path);
    let shown = show_histogram::show_histogram(
        &rt,
        &mut rt.stdout(),
        &text[..input.size],
        &path[..record.unwrap_or(0)],
    );
    output::tell(
        &mut rt.stderr(),
        shown.ended == ReadEnd::Incomplete,
        "histogram: the record cannot be read\n",
    );
    output::tell(
        &mut rt.stderr(),
        !shown.handed.whole,
        "histogram: the counts cannot be written whole\n",
    );
}
