// Prints the shortest course to a final state of a sheet's table: `shortest SHEET [STATE]`, the name of a file, and the state to start from instead of 0. A
// file that cannot be read counts as empty. Failed reads and writes are told on standard error.
#![tactic(auto)]

fn main(rt: HostRuntime) {
    let mut text = [0u8; 16385];
    let mut source = input::open_argument(&rt, 1);
    let input = input::read_input(&mut source, &mut text);
    drop(source);
    output::tell(
        &mut rt.stderr(),
        input.failed,
        "shortest: the sheet cannot be read\n",
    );
    let size = input.size;
    let mut start = [0u8; 4096];
    let argument = input::take_argument(&rt, 2, &mut start);
    let printed = show_course::show_course(
        &mut rt.stdout(),
        &text[..size],
        argument.is_some(),
        &start[..argument.unwrap_or(0)],
    );
    output::tell(
        &mut rt.stderr(),
        !printed.whole,
        "shortest: the course cannot be written whole\n",
    );
}
