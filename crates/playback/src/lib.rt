// Writes what `replay` prints for a chunk of a record to a writer, such as standard output. The crate `replaying` gives the bytes; what is left here is the loop that writes
// them, by way of lent bytes, and counts those that it hands over.
#![tactic(auto)]

ghost use Rattle.std.specs.Prelude.{◌≡◌, ◌+◌, min};
ghost use Rattle.replaying.specs.Machine.{played_sheet};
ghost use Rattle.playback.specs.Written.{highest_count, WritesChunk};

use replaying::Replay;
use std::io::Write;

// Where the reading stands, how many bytes were taken by writes, and whether each write took all of its bytes.
#[derive(Clone, Copy)]
pub struct Written {
    pub replay: Replay,
    pub size: usize,
    pub whole: bool,
}

// The sum; the highest number of the machine stays, so that no sum wraps.
fn add_size(size: usize, more: usize) -> usize
    ensures { result ≡ min (size + more) highest_count }
{
    size.saturating_add(more)
}

// Plays all bytes of a chunk, and writes what they print by way of the lent bytes. Lent bytes without room for a line count as a write that fails.
pub fn write_chunk<W: Write>(
    to: &mut W,
    replay: Replay,
    chunk: &[u8],
    names: &[u8],
    lengths: &[u8],
    lows: &[i64],
    highs: &[i64],
    entries: &[u16],
    out: &mut [u8],
) -> Written
    ensures { WritesChunk (played_sheet names.now lengths.now lows.now highs.now entries.now) replay chunk.now out.old out.new result }
{
    let mut playing = replay;
    let mut at = 0;
    let mut size = 0;
    let mut whole = 32 <= out.len();
    while whole {
        if chunk.len() <= at {
            break;
        }
        let advanced = replaying::advance(
            playing, chunk, at, names, lengths, lows, highs, entries, out,
        );
        playing = advanced.replay;
        at = advanced.next;
        let handed = output::write_front(to, out, advanced.size);
        size = add_size(size, handed.size);
        whole = handed.whole;
    }
    Written {
        replay: playing,
        size,
        whole,
    }
}
