// Prints the joined table of two sheets on one river: `join SHEET SHEET`, the names of two files. A file that cannot be read counts as empty. Failed reads and
// writes are told on standard error.
#![tactic(auto)]

ghost use Rattle.std.specs.Prelude.{◌≤◌, length};

use std::env::Env;
use std::io::Write;
use std::rt::Files;

// Reads the file that an argument names to the front of the text; its length. A read that fails is told. A missing argument names none, nor does one that is longer than a path.
fn read_sheet<R: Env + Files, E: Write>(
    rt: &R,
    err: &mut E,
    argument: usize,
    text: &mut [u8],
    message: &str,
) -> usize
    ensures { result ≤ length text.old }
{
    let mut source = input::open_argument(rt, argument);
    let input = input::read_input(&mut source, text);
    drop(source);
    output::tell(err, input.failed, message);
    input.size
}

fn main(rt: HostRuntime) {
    let mut first = [0u8; 16385];
    let first_size = read_sheet(
        &rt,
        &mut rt.stderr(),
        1,
        &mut first,
        "join: the first sheet cannot be read\n",
    );
    let mut second = [0u8; 16385];
    let second_size = read_sheet(
        &rt,
        &mut rt.stderr(),
        2,
        &mut second,
        "join: the second sheet cannot be read\n",
    );
    let printed = show_join::show_join(
        &mut rt.stdout(),
        &first[..first_size],
        &second[..second_size],
    );
    output::tell(
        &mut rt.stderr(),
        !printed.whole,
        "join: the table cannot be written whole\n",
    );
}
