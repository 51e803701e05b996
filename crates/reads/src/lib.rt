// What the reads of an input in chunks come to: at its end, at bytes behind which nothing matters, or before both. What is made of the bytes is a caller's.
#![tactic(auto)]

ghost use Rattle.std.specs.Prelude.{◌≡◌};
ghost use Rattle.reads.specs.Chunks.{reads_so_far};

// How reading an input ended: at its end; where nothing behind matters; or before both.
#[derive(Clone, Copy, PartialEq, Eq)]
pub enum ReadEnd {
    Complete,
    Stopped,
    Incomplete,
}

// What a read with this answer comes to, where `left` reads may follow, and `stopped` says whether what follows its bytes matters no more: how the reading
// ended, or nothing where more is to be read.
pub fn so_far(stopped: bool, answer: isize, left: u64) -> Option<ReadEnd>
    ensures { result ≡ reads_so_far stopped answer left }
{
    if stopped {
        return Some(ReadEnd::Stopped);
    }
    if answer < 0 {
        return Some(ReadEnd::Incomplete);
    }
    if answer == 0 {
        return Some(ReadEnd::Complete);
    }
    if left == 0 {
        return Some(ReadEnd::Incomplete);
    }
    None
}
