// Streams as a host describes them, names, ranges and kinds, and whether an accepted sheet could have them.
#![tactic(auto)]

ghost use Rattle.std.specs.Prelude.{◌≡◌, ◌≤◌, ◌<◌};
ghost use Rattle.basics.specs.Answers.{Says};
ghost use Rattle.sheet.specs.Names.{name_in};
ghost use Rattle.streams.specs.Description.{none_described, IsNewName, NameFits, RangeFits, StreamFits, EachFits, StreamsFit};

// The most letters that a table has.
const MOST_LETTERS: usize = 1024;

// So many streams: eight bytes for each name, the names' lengths, the lowest and highest values, and the kinds, 0 for `set` and 1 for `read`. Laid out
// as in C, so that exported functions can take it and give it back.
#[repr(C)]
#[derive(Clone, Copy)]
pub struct StreamsDescription {
    pub count: usize,
    pub names: [u8; 64],
    pub lengths: [u8; 8],
    pub lows: [i64; 8],
    pub highs: [i64; 8],
    pub kinds: [u8; 8],
}

impl StreamsDescription {
    // No streams, with every number 0.
    pub fn none() -> StreamsDescription
        ensures { result ≡ none_described }
    {
        StreamsDescription {
            count: 0,
            names: [0; 64],
            lengths: [0; 8],
            lows: [0; 8],
            highs: [0; 8],
            kinds: [0; 8],
        }
    }

    // The bytes of a stream's name: as many as its length says, and at most the eight that are kept for it. No bytes are kept for a ninth stream.
    pub fn name(&self, stream: usize) -> &[u8]
        ensures { result.now ≡ name_in self.now.names self.now.lengths stream }
    {
        if 8 <= stream {
            return &[];
        }
        let start = stream * 8;
        let end = start + usize::from(self.lengths[stream].min(8));
        &self.names[start..end]
    }
}

// Whether a stream's name is none of those before it.
fn is_new(streams: &StreamsDescription, stream: usize) -> bool
    requires { stream < 8 }
    ensures { Says result (IsNewName streams.now.names streams.now.lengths stream) }
{
    for other in 0..stream {
        if streams.name(other) == streams.name(stream) {
            return false;
        }
    }
    true
}

// Whether a stream's name has no more than its eight bytes, is one, not reserved, and none of those before it.
fn name_fits(streams: &StreamsDescription, stream: usize) -> bool
    requires { stream < 8 }
    ensures { Says result (NameFits streams.now.names streams.now.lengths stream) }
{
    if 8 < streams.lengths[stream] {
        return false;
    }
    let name = streams.name(stream);
    scan::is_name(name) && !vocabulary::is_reserved(name) && is_new(streams, stream)
}

// "Magnitudes to 1,000,000,000", and the low not above the high.
fn range_fits(low: i64, high: i64) -> bool
    ensures { Says result (RangeFits low high) }
{
    -1000000000 <= low && high <= 1000000000 && low <= high
}

// Whether an accepted sheet with the streams before this one could have it too.
fn stream_fits(streams: &StreamsDescription, stream: usize) -> bool
    requires { stream < 8 }
    ensures { Says result (StreamFits streams.now stream) }
{
    streams.kinds[stream] <= nodes::READ_STREAM
        && range_fits(streams.lows[stream], streams.highs[stream])
        && name_fits(streams, stream)
}

fn each_fits(streams: &StreamsDescription) -> bool
    requires { streams.now.count ≤ 8 }
    ensures { Says result (EachFits streams.now) }
{
    (0..streams.count).all(|stream| stream_fits(streams, stream))
}

// Whether an accepted sheet could have the streams, and they make so many letters.
pub fn streams_fit(streams: StreamsDescription, letters: usize) -> bool
    ensures { Says result (StreamsFit streams letters) }
{
    let count = streams.count;
    if count == 0 || 8 < count || MOST_LETTERS < letters || !each_fits(&streams) {
        return false;
    }
    letters::letter_count(&streams.lows[..count], &streams.highs[..count]) as usize == letters
}
