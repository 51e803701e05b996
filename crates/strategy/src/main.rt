// Prints the play table of a sheet, by which the keeper forces a solution: `strategy SHEET`, the name of a file. A file that cannot be read counts as empty.
// Failed reads and writes are told on standard error.
#![tactic(auto)]

fn main(rt: HostRuntime) {
    let mut text = [0u8; 16385];
    let mut source = input::open_argument(&rt, 1);
    let input = input::read_input(&mut source, &mut text);
    drop(source);
    output::tell(
        &mut rt.stderr(),
        input.failed,
        "strategy: the sheet cannot be read\n",
    );
    let size = input.size;
    let printed = show_strategy::show_strategy(&mut rt.stdout(), &text[..size]);
    output::tell(
        &mut rt.stderr(),
        !printed.whole,
        "strategy: the play table cannot be written whole\n",
    );
}
