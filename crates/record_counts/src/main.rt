// Prints how many records of 0, 1, 2 letters and so on begin a solution of a sheet, and how many of them end in a final state. Standard input has a line with the
// most letters, and then the sheet. It is read in chunks of a fixed size, so that a line of any length takes the same memory. Where a read fails the input counts
// as empty. Failed reads and writes are told on standard error.
#![tactic(auto)]

use reads::ReadEnd;

fn main(rt: HostRuntime) {
    let shown = show_counts::show_input(&mut Some(rt.stdin()), &mut rt.stdout());
    output::tell(
        &mut rt.stderr(),
        shown.ended == ReadEnd::Incomplete,
        "record_counts: the input cannot be read\n",
    );
    output::tell(
        &mut rt.stderr(),
        !shown.handed.whole,
        "record_counts: the figures cannot be written\n",
    );
}
