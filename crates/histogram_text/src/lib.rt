// Fills lent bytes with whole lines of what `histogram` prints, from a place on, so that a program only has to write the filled bytes. Place 0 has the
// heading, or the line of a refusal; then 1,024 places for each stream have a line for each of its values, or nothing; and the last has the total.
#![tactic(auto)]

ghost use Rattle.std.specs.Prelude.{◌≡◌, ℕ, ◌<◌, min, length};
ghost use Rattle.print.specs.Append.{Appends};
ghost use Rattle.pages.specs.Lines.{line_room, HoldsLine, IsPage};
ghost use Rattle.histogram_text.specs.Output.{printed_stream_count, value_text, histogram_at, histogram_places};

use pages::Page;

// How many streams are printed, eight at most.
fn stream_count(lows: &[i64], highs: &[i64]) -> usize
    ensures { result ≡ printed_stream_count lows.now highs.now }
{
    lows.len().min(highs.len()).min(8)
}

// How many places there are.
fn place_count(refusal: u32, lows: &[i64], highs: &[i64]) -> usize
    ensures { result ≡ histogram_places refusal lows.now highs.now }
{
    if refusal != 0 {
        return 1;
    }
    stream_count(lows, highs) * 1024 + 2
}

// The line of the value of a stream that lies so far above its lowest; nothing where the stream has no such value.
fn value_line(
    names: &[u8],
    lengths: &[u8],
    lows: &[i64],
    highs: &[i64],
    counts: &[u64],
    stream: usize,
    digit: u32,
    line: &mut [u8],
) -> usize
    requires { stream < min (length lows.now) (length highs.now) }
    ensures { (refusal total : ℕ) → Appends 0 (value_text (record { refusal = refusal; total = total; names = names.now; lengths = lengths.now; lows = lows.now; highs = highs.now; counts = counts.now }) stream digit) line.old line.new result }
{
    let next = stream + 1;
    let mut values = [0i64; 8];
    if !letters::letter_values(
        &lows[stream..next],
        &highs[stream..next],
        digit,
        &mut values,
    ) {
        return 0;
    }
    let held = held_lines::held_lines(counts, lows, highs, stream, digit);
    let name = record_names::name_in(names, lengths, stream);
    print::named_line(name, &values[..1], held, line)
}

// Writes the line at a place to the front of the bytes and gives its length.
fn line_at(
    refusal: u32,
    total: u64,
    names: &[u8],
    lengths: &[u8],
    lows: &[i64],
    highs: &[i64],
    counts: &[u64],
    place: usize,
    line: &mut [u8],
) -> usize
    requires { length line.old ≡ line_room }
    ensures { HoldsLine (histogram_at (record { refusal = refusal; total = total; names = names.now; lengths = lengths.now; lows = lows.now; highs = highs.now; counts = counts.now }) place) line_room line.new result }
{
    if refusal != 0 {
        if place != 0 {
            return 0;
        }
        return print::refusal_line(refusal, line);
    }
    if place == 0 {
        return print::text(b"stream value lines\n", line);
    }
    let stream = (place - 1) / 1024;
    if stream_count(lows, highs) <= stream {
        let none = [0i64; 1];
        return print::named_line(b"total", &none[..0], total, line);
    }
    let digit = ((place - 1) % 1024) as u32;
    value_line(names, lengths, lows, highs, counts, stream, digit, line)
}

// The lines of the places from `from` on, as many as the bytes have room for: "stream value lines", then a line for each stream and each value of its range,
// and the total; or the one line of a refusal.
pub fn fill_page(
    refusal: u32,
    total: u64,
    names: &[u8],
    lengths: &[u8],
    lows: &[i64],
    highs: &[i64],
    counts: &[u64],
    from: usize,
    out: &mut [u8],
) -> Page
    ensures { IsPage (histogram_at (record { refusal = refusal; total = total; names = names.now; lengths = lengths.now; lows = lows.now; highs = highs.now; counts = counts.now })) (histogram_places refusal lows.now highs.now) from out.old out.new result }
{
    let count = place_count(refusal, lows, highs);
    let mut line = [0u8; 256];
    let mut size = 0;
    let mut place = from;
    while place < count {
        let length = line_at(
            refusal, total, names, lengths, lows, highs, counts, place, &mut line,
        );
        if (out.len() - size).min(256) < length {
            break;
        }
        print::text(&line[..length], &mut out[size..]);
        size += length;
        place += 1;
    }
    Page { size, next: place }
}
