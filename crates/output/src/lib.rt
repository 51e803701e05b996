// Writes bytes to a writer, such as standard output, and counts them. Of a writer whose bytes are known it is said what it holds afterwards. What reaches
// standard output no contract can say, so a program that prints a text in parts counts the bytes of the writes that were whole.
#![tactic(auto)]

ghost use Rattle.std.specs.Prelude.{take, cond, []};
ghost use Rattle.output.specs.Output.{Hands, WritesWhole};

use std::io::{ErrorKind, Write};

// How many writes of a message there may be beyond one for each of its bytes, so that signals that interrupt writes do not keep it back.
const MORE_WRITES: usize = 64;

// How many bytes were taken by writes, and whether each write took all of its bytes.
#[derive(Clone, Copy)]
pub struct Handed {
    pub size: usize,
    pub whole: bool,
}

// Writes all of the bytes; whether each write took some of those that were left. A write that fails is not made again, nor is one that a signal cut short.
pub fn write_whole<W: Write>(out: &mut W, bytes: &[u8]) -> bool
    ensures { WritesWhole (W.contents out.old) (W.contents out.new) bytes.now result }
{
    let mut done = 0;
    while done < bytes.len() {
        match out.write(&bytes[done..]) {
            Ok(0) => return false,
            Ok(count) => done += count,
            Err(_) => return false,
        }
    }
    true
}

// Writes the first bytes, so many of them, or all where there are fewer. Those of a write that fails do not count, and no bytes need no write.
pub fn write_front<W: Write>(out: &mut W, bytes: &[u8], size: usize) -> Handed
    ensures hands { Hands (take size bytes.now) result.size result.whole }
    ensures written { WritesWhole (W.contents out.old) (W.contents out.new) (take size bytes.now) result.whole }
{
    let count = size.min(bytes.len());
    if count == 0 {
        return Handed {
            size: 0,
            whole: true,
        };
    }
    if !write_whole(out, &bytes[..count]) {
        return Handed {
            size: 0,
            whole: false,
        };
    }
    Handed {
        size: count,
        whole: true,
    }
}

// Writes all of the bytes, as `write_whole` does, but makes a write that a signal interrupts again.
fn write_again<W: Write>(out: &mut W, bytes: &[u8]) -> bool
    ensures { WritesWhole (W.contents out.old) (W.contents out.new) bytes.now result }
{
    let mut done = 0;
    for _ in 0..bytes.len().saturating_add(MORE_WRITES) {
        if done == bytes.len() {
            return true;
        }
        match out.write(&bytes[done..]) {
            Ok(count) if 0 < count => done += count,
            Err(error) if error.kind() == ErrorKind::Interrupted => {}
            _ => return false,
        }
    }
    done == bytes.len()
}

// Writes a message where there is something to tell, and nothing where there is not; whether all that was to be written was. A write that a signal interrupts is
// made again, as std's `eprint` does.
pub fn tell<W: Write>(out: &mut W, something: bool, message: &str) -> bool
    ensures { WritesWhole (W.contents out.old) (W.contents out.new) (cond something message.now []) result }
{
    if !something {
        return true;
    }
    write_again(out, message.as_bytes())
}
