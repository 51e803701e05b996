// Tables as a host gives them to a call, each with a description of its streams: which of them are turned away with 11, and whether two have the same
// streams (document 02, S-9 and S-10).
#![tactic(auto)]

ghost use Rattle.std.specs.Prelude.{◌≡◌, ◌<◌};
ghost use Rattle.basics.specs.Answers.{Says};
ghost use Rattle.streams.specs.Description.{kind_with, stream_in};
ghost use Rattle.given_tables.specs.Given.{given_table, IsFitTable, SameStreams};

use nodes::READ_STREAM;
use streams::StreamsDescription;

// Whether the table is well formed, an accepted sheet could have the streams, and they make the table's letters.
pub fn is_fit(entries: &[u16], finals: &[u8], letters: usize, streams: StreamsDescription) -> bool
    ensures { Says result (IsFitTable (given_table entries.now finals.now letters streams)) }
{
    tables::is_well_formed(entries, finals, letters) && streams::streams_fit(streams, letters)
}

pub fn same_range(low: i64, high: i64, other_low: i64, other_high: i64) -> bool
    ensures { Says result ((low ≡ other_low) × (high ≡ other_high)) }
{
    low == other_low && high == other_high
}

// A number that is not that of `read` is taken for `set`.
pub fn same_kind(kind: u8, other: u8) -> bool
    ensures { Says result (kind_with kind ≡ kind_with other) }
{
    (kind == READ_STREAM) == (other == READ_STREAM)
}

fn same_stream(a: &StreamsDescription, b: &StreamsDescription, stream: usize) -> bool
    requires { stream < 8 }
    ensures { Says result (stream_in a.now stream ≡ stream_in b.now stream) }
{
    a.name(stream) == b.name(stream)
        && same_range(
            a.lows[stream],
            a.highs[stream],
            b.lows[stream],
            b.highs[stream],
        )
        && same_kind(a.kinds[stream], b.kinds[stream])
}

// Whether two descriptions say the same streams, name, range and kind at each place.
pub fn same_streams(a: StreamsDescription, b: StreamsDescription) -> bool
    ensures { Says result (SameStreams a b) }
{
    if a.count != b.count {
        return false;
    }
    (0..a.count.min(8)).all(|stream| same_stream(&a, &b, stream))
}
