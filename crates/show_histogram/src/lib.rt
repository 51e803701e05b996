// Prints what `histogram` prints for a sheet and a record. The crates `record_file` and `histogram_text` give the counts and the bytes; what is left here is
// the loop that writes pages and counts the bytes that it hands over.
#![tactic(auto)]

ghost use Rattle.std.specs.Prelude.{◌≡◌, length};
ghost use Rattle.print.specs.Text.{refusal_line};
ghost use Rattle.print.specs.Lines.{AllFit};
ghost use Rattle.stored_ranges.specs.Ranges.{HasRanges};
ghost use Rattle.histogram_text.specs.Output.{histogram_output};
ghost use Rattle.output.specs.Output.{Hands};
ghost use Rattle.show_histogram.specs.Shows.{ShowsHistogram, ShowsCounts};

use output::Handed;
use reader::StoredSheet;
use reads::ReadEnd;
use std::io::Write;
use std::rt::Files;

// How many bytes were taken by writes, and how the reading of the record ended; where the sheet is refused the record is not opened, since nothing of it
// matters.
#[derive(Clone, Copy)]
pub struct ShownCounts {
    pub handed: Handed,
    pub ended: ReadEnd,
}

// Writes all lines, page by page, and stops at a write that fails.
fn write_pages<W: Write>(
    out: &mut W,
    refusal: u32,
    total: u64,
    names: &[u8],
    lengths: &[u8],
    lows: &[i64],
    highs: &[i64],
    counts: &[u64],
) -> Handed
    requires { AllFit lows.now × AllFit highs.now }
    ensures { Hands (histogram_output (record { refusal = refusal; total = total; names = names.now; lengths = lengths.now; lows = lows.now; highs = highs.now; counts = counts.now })) result.size result.whole }
{
    let mut page = [0u8; 4096];
    let mut size = 0;
    let mut from = 0;
    'pages: loop {
        let filled = histogram_text::fill_page(
            refusal, total, names, lengths, lows, highs, counts, from, &mut page,
        );
        let count = filled.size;
        if count == 0 {
            return Handed { size, whole: true };
        }
        let handed = output::write_front(out, &page, count);
        if !handed.whole {
            return Handed { size, whole: false };
        }
        size += handed.size;
        from = filled.next;
    }
}

// Counts the lines of the record, and prints the counts or the refusal.
fn show_counts<F: Files, W: Write>(
    files: &F,
    out: &mut W,
    sheet: StoredSheet,
    path: &[u8],
) -> ShownCounts
    requires { HasRanges sheet }
    ensures { ShowsCounts sheet result }
{
    let names = sheet.names;
    let lengths = sheet.lengths;
    let lows = sheet.lows;
    let highs = sheet.highs;
    let streams = sheet.streams.min(8);
    let mut counts = [0u64; 1024];
    let file = record_file::count_file(
        files,
        path,
        &names,
        &lengths[..streams],
        &lows[..streams],
        &highs[..streams],
        &mut counts,
    );
    let counted = file.counted;
    let handed = write_pages(
        out,
        counted.refusal,
        counted.total,
        &names,
        &lengths[..streams],
        &lows[..streams],
        &highs[..streams],
        &counts,
    );
    ShownCounts {
        handed,
        ended: file.ended,
    }
}

// Writes the line of the sheet's refusal.
fn show_refusal<W: Write>(out: &mut W, refusal: u32) -> Handed
    ensures { Hands (refusal_line refusal) result.size result.whole }
{
    let mut line = [0u8; 32];
    let size = print::refusal_line(refusal, &mut line);
    output::write_front(out, &line, size)
}

// Prints how many value lines of the record in the file with this path hold each value, or the refusal of the sheet or the record. The file is opened where the
// sheet is not refused.
pub fn show_histogram<F: Files, W: Write>(
    files: &F,
    out: &mut W,
    text: &[u8],
    path: &[u8],
) -> ShownCounts
    ensures { ShowsHistogram text.now result }
{
    let reading = reader::read(text);
    if reading.refusal != 0 {
        return ShownCounts {
            handed: show_refusal(out, reading.refusal),
            ended: ReadEnd::Stopped,
        };
    }
    show_counts(files, out, reading.sheet, path)
}
