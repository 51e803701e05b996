// Prints the table of a sheet as a C header: `export SHEET`, the name of a file. A file that cannot be read counts as empty. Failed reads and writes are told on
// standard error.
#![tactic(auto)]

fn main(rt: HostRuntime) {
    let mut text = [0u8; 16385];
    let mut source = input::open_argument(&rt, 1);
    let input = input::read_input(&mut source, &mut text);
    drop(source);
    output::tell(
        &mut rt.stderr(),
        input.failed,
        "export: the sheet cannot be read\n",
    );
    let size = input.size;
    let printed = show_export::show_export(&mut rt.stdout(), &text[..size]);
    output::tell(
        &mut rt.stderr(),
        !printed.whole,
        "export: the header cannot be written whole\n",
    );
}
