// Writes the text of a table with the streams that are described, page by page, or the line of a refusal, and counts the bytes that writes take. The crate
// `pages` gives the bytes.
#![tactic(auto)]

ghost use Rattle.std.specs.Prelude.{◌≤◌, length};
ghost use Rattle.output.specs.Output.{Hands};
ghost use Rattle.pages.specs.Output.{output_text};
ghost use Rattle.table_pages.specs.Printout.{described_printout, RangesHeld, WritesTable};

use output::Handed;
use pages::Table;
use std::io::Write;
use streams::StreamsDescription;

// Writes all lines of the table of so many states.
fn write_pages<W: Write>(
    out: &mut W,
    streams: StreamsDescription,
    states: u32,
    entries: &[u16],
    finals: &[u8],
) -> Handed
    requires { RangesHeld streams × (length entries.now ≤ 32768) }
    ensures { Hands (output_text (described_printout streams 0 states entries.now finals.now)) result.size result.whole }
{
    let count = streams.count.min(8);
    let table = Table {
        refusal: 0,
        states,
        names: &streams.names,
        lengths: &streams.lengths,
        lows: &streams.lows[..count],
        highs: &streams.highs[..count],
        entries,
        finals,
    };
    let mut page = [0u8; 65536];
    pages::write_pages(out, &table, &mut page)
}

// Writes the line of the refusal; or, where the streams are those that an accepted sheet could have and make so many letters, the table of so many states in
// the first rows of the arrays.
pub fn write_table<W: Write>(
    out: &mut W,
    streams: StreamsDescription,
    letters: usize,
    refusal: u32,
    states: u32,
    entries: &[u16; 32768],
    finals: &[u8; 256],
) -> Handed
    ensures { WritesTable streams letters refusal states entries.now finals.now result }
{
    if refusal != 0 {
        return pages::write_refusal(out, refusal);
    }
    if !streams::streams_fit(streams, letters) {
        return Handed {
            size: 0,
            whole: true,
        };
    }
    write_pages(out, streams, states, entries, finals)
}
