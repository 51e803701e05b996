// Prints for each state of an old sheet's table the state of a new sheet's table to go on from: `migrate OLD NEW`, the names of two files. A file that cannot
// be read counts as empty. Failed reads and writes are told on standard error.
#![tactic(auto)]

ghost use Rattle.std.specs.Prelude.{◌≤◌, length};

use std::env::Env;
use std::io::Write;
use std::rt::Files;

// Reads the file that an argument names to the front of the text; its length. A read that fails is told. A missing argument names none, nor does one that is longer than a path.
fn read_sheet<R: Env + Files, E: Write>(
    rt: &R,
    err: &mut E,
    argument: usize,
    text: &mut [u8],
    message: &str,
) -> usize
    ensures { result ≤ length text.old }
{
    let mut source = input::open_argument(rt, argument);
    let input = input::read_input(&mut source, text);
    drop(source);
    output::tell(err, input.failed, message);
    input.size
}

fn main(rt: HostRuntime) {
    let mut old = [0u8; 16385];
    let old_size = read_sheet(
        &rt,
        &mut rt.stderr(),
        1,
        &mut old,
        "migrate: the old sheet cannot be read\n",
    );
    let mut new = [0u8; 16385];
    let new_size = read_sheet(
        &rt,
        &mut rt.stderr(),
        2,
        &mut new,
        "migrate: the new sheet cannot be read\n",
    );
    let printed = show_migration::show_migration(
        &mut rt.stdout(),
        &old[..old_size],
        &new[..new_size],
    );
    output::tell(
        &mut rt.stderr(),
        !printed.whole,
        "migrate: the list cannot be written whole\n",
    );
}
