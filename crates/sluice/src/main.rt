// Reads a sheet from standard input and prints its table. One byte more than a sheet may have is enough to refuse it, so that no more is read.
// A sheet that cannot be read whole counts as empty; this, and a table that cannot be written whole, is told on standard error.
#![tactic(auto)]

fn main(rt: HostRuntime) {
    let mut text = [0u8; 16385];
    let mut source = Some(rt.stdin());
    let input = input::read_input(&mut source, &mut text);
    output::tell(
        &mut rt.stderr(),
        input.failed,
        "sluice: the sheet cannot be read\n",
    );
    let size = input.size;
    let printed = show::show(&mut rt.stdout(), &text[..size]);
    output::tell(
        &mut rt.stderr(),
        !printed.whole,
        "sluice: the table cannot be written whole\n",
    );
}
