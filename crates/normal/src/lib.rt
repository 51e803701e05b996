// The normal form of a sheet: its entries as records in a lent list.
#![tactic(auto)]

ghost use Rattle.std.specs.Prelude.{◌≡◌, [], ◌∷◌, suc, ◌+◌, ◌*◌, ◌-◌, ◌≤◌, ◌<◌, length};
ghost use Rattle.std.proofs.lemmas.List.Edits.{sets};
ghost use Rattle.nodes.specs.Evaluate.{stored};
ghost use Rattle.sheet.specs.Reading.{answer_to};
ghost use Rattle.outcome.specs.NormalForm.{NormalOutcome};
ghost use Rattle.normal.specs.Encoded.{normal_entries, normal_answer_of};
ghost use Rattle.normal.specs.Outcome.{entries_for};
ghost use Rattle.normal.specs.Rows.{until_row, equation_row, next_entries, fby_entries, until_entries};
ghost use Rattle.normal.specs.Stored.{rewriting_before, stored_line, stored_lines, range_before};
ghost use Rattle.normal_entries.specs.Entries.{row_bound, blank, refused_made};
ghost use Rattle.normal.specs.Table.{stream_limit, put_rows, RewritingFits, Wrote, WroteLine, WroteLines, LinesHaveRoom, HasLines, ends_up_to, made_tables};

use nodes::{Range, left_end};
use normal_entries::{Entry, Made, NormalForm, fill, put_spans, refused, refused_answer};

// The row and the stream behind the last.
#[derive(Clone, Copy)]
struct RowsWritten {
    row: usize,
    stream: usize,
}

// The place of the node that stands before `end`; 0 where there is none.
fn last_node(end: usize) -> usize
    ensures { result ≡ end - 1 }
{
    end.saturating_sub(1)
}

fn put_row(
    table: &mut [u16; 30944],
    row: usize,
    kind: u16,
    relation: u16,
    left: usize,
    left_added: usize,
    right: usize,
    right_added: usize,
    source: usize,
)
    requires { (row < row_bound) × (left < 65536) × (left_added < 65536) × (right < 65536) × (right_added < 65536) × (source < 65536) }
    ensures { table.new ≡ put_rows table.old row (record { kind = kind; relation = relation; left = left; left_added = left_added; right = right; right_added = right_added; source = source } ∷ []) }
{
    let at = row * 7;
    table[at] = kind;
    table[at + 1] = relation;
    table[at + 2] = left as u16;
    table[at + 3] = left_added as u16;
    table[at + 4] = right as u16;
    table[at + 5] = right_added as u16;
    table[at + 6] = source as u16;
}

// `x₂ == expr`, of the expression that ends before `end` and adds streams from `added` on
fn put_equation(table: &mut [u16; 30944], row: usize, stream: usize, end: usize, added: usize)
    requires { (row < row_bound) × (stream < 65536) × (end < 65536) × (added < 65536) }
    ensures { table.new ≡ put_rows table.old row (equation_row stream end added ∷ []) }
{
    put_row(table, row, 3, 2, stream, 0, last_node(end), added, end);
}

// The two entries of a `next` whose part ends before `end`.
fn put_next(table: &mut [u16; 30944], row: usize, stream: usize, end: usize)
    requires { (row + 2 ≤ row_bound) × (stream + 2 ≤ stream_limit) × (end ≤ 1024) }
    ensures { table.new ≡ put_rows table.old row (next_entries end stream) }
{
    put_equation(table, row, stream + 1, end, stream + 2);
    put_row(table, row + 1, 4, 2, stream, 0, stream + 1, 0, end + 1);
}

// The four entries of an `fby` whose parts end before `left` and `right`, where the left part adds streams from `added` on.
fn put_fby(
    table: &mut [u16; 30944],
    row: usize,
    stream: usize,
    left: usize,
    right: usize,
    added: usize,
)
    requires { (row + 4 ≤ row_bound) × (stream + 3 ≤ stream_limit) × (left ≤ 1024) × (right ≤ 1024) × (added ≤ stream_limit) }
    ensures { table.new ≡ put_rows table.old row (fby_entries left right added stream) }
{
    put_equation(table, row, stream + 1, left, added);
    put_equation(table, row + 1, stream + 2, right, stream + 3);
    put_row(table, row + 2, 5, 2, stream, 0, stream + 1, 0, right + 1);
    put_row(table, row + 3, 4, 2, stream + 2, 0, stream, 0, right);
}

// Writes what the part adds that ends before `end`, by recursion into its parts, which end earlier.
fn write_rows(
    kinds: &[u8],
    starts: &[u16],
    end: usize,
    row: usize,
    stream: usize,
    table: &mut [u16; 30944],
) -> RowsWritten
    requires { (end ≤ length kinds.now) × (end ≤ 1024) × RewritingFits (rewriting_before kinds.now starts.now end) row stream }
    ensures { Wrote (rewriting_before kinds.now starts.now end) row stream table.old table.new result }
{
    if end == 0 {
        return RowsWritten { row, stream };
    }
    let last = end - 1;
    let kind = kinds[last];
    if kind < nodes::FIRST_NODE {
        return RowsWritten { row, stream };
    }
    if kind == nodes::NEXT_NODE {
        put_next(table, row, stream, last);
        return write_rows(kinds, starts, last, row + 2, stream + 2, table);
    }
    if kind < nodes::CONDITIONAL_NODE {
        return write_rows(kinds, starts, last, row, stream, table);
    }
    let middle = left_end(starts, last);
    if kind == nodes::CONDITIONAL_NODE {
        let first = left_end(starts, middle);
        let c = write_rows(kinds, starts, first, row, stream, table);
        let a = write_rows(kinds, starts, middle, c.row, c.stream, table);
        return write_rows(kinds, starts, last, a.row, a.stream, table);
    }
    let a = write_rows(kinds, starts, middle, row, stream, table);
    if kind == nodes::FBY_NODE {
        put_fby(table, a.row, a.stream, middle, last, stream);
        return write_rows(kinds, starts, last, a.row + 4, a.stream + 3, table);
    }
    write_rows(kinds, starts, last, a.row, a.stream, table)
}

// The own entry and the two added entries of an `until` whose sides end before `left` and `right`, where the left side adds streams from
// `added` on.
fn put_until(
    table: &mut [u16; 30944],
    own: usize,
    row: usize,
    stream: usize,
    left: usize,
    right: usize,
    added: usize,
)
    requires { (own < row_bound) × (row + 2 ≤ row_bound) × (stream + 2 ≤ stream_limit) × (left ≤ 1024) × (right ≤ 1024) × (added ≤ stream_limit) }
    ensures { table.new ≡ put_rows (put_rows table.old own (until_row stream left ∷ [])) row (until_entries left right added stream) }
{
    put_row(table, own, 2, 7, stream, 0, stream + 1, 0, left);
    put_equation(table, row, stream, left, added);
    put_equation(table, row + 1, stream + 1, right, stream + 2);
}

// Writes the own entry of a line and what it adds; its sides end with the nodes `left` and `right`.
fn write_line(
    kinds: &[u8],
    starts: &[u16],
    relation: u8,
    left: usize,
    right: usize,
    own: usize,
    row: usize,
    stream: usize,
    table: &mut [u16; 30944],
) -> RowsWritten
    requires { (left < length kinds.now) × (right < length kinds.now) × (length kinds.now ≤ 1024) × (own < row) × RewritingFits (stored_line kinds.now starts.now relation left right).adds row stream }
    ensures { WroteLine (stored_line kinds.now starts.now relation left right) own row stream table.old table.new result }
{
    let a = write_rows(kinds, starts, left + 1, row, stream, table);
    if relation == nodes::UNTIL_RELATION {
        put_until(table, own, a.row, a.stream, left + 1, right + 1, stream);
        return write_rows(kinds, starts, right + 1, a.row + 2, a.stream + 2, table);
    }
    put_row(
        table,
        own,
        1,
        relation as u16,
        left,
        stream,
        right,
        a.stream,
        0,
    );
    write_rows(kinds, starts, right + 1, a.row, a.stream, table)
}

// Writes the entries of all lines: their own first, then what they add, with streams numbered from `streams` on.
fn write_lines(
    kinds: &[u8],
    starts: &[u16],
    relations: &[u8],
    lefts: &[u16],
    rights: &[u16],
    streams: usize,
    table: &mut [u16; 30944],
) -> RowsWritten
    requires has_lines { HasLines kinds.now relations.now lefts.now rights.now }
    requires lines_have_room { LinesHaveRoom (stored_lines kinds.now starts.now relations.now lefts.now rights.now) (length relations.now) streams }
    ensures { WroteLines (stored_lines kinds.now starts.now relations.now lefts.now rights.now) 0 (length relations.now) streams table.old table.new result }
{
    let mut row = relations.len();
    let mut stream = streams;
    for (j, relation) in relations.iter().enumerate() {
        let next = write_line(
            kinds,
            starts,
            *relation,
            lefts[j] as usize,
            rights[j] as usize,
            j,
            row,
            stream,
            table,
        );
        row = next.row;
        stream = next.stream;
    }
    RowsWritten { row, stream }
}

// The range of the part that ends before `end`, if it has one within the bound.
fn range_before(
    kinds: &[u8],
    values: &[i64],
    starts: &[u16],
    lows: &[i64],
    highs: &[i64],
    end: usize,
) -> Option<Range>
    ensures { result ≡ range_before (stored kinds.now values.now starts.now) lows.now highs.now end }
{
    if end == 0 {
        return None;
    }
    bounds::summary(kinds, values, starts, lows, highs, end - 1).range
}

// Stores the ends of the range of a row.
fn put_range(ends: &mut [i64; 8256], row: usize, low: i64, high: i64)
    requires { row < row_bound }
    ensures { ends.new ≡ sets ends.old (row * 2) (low ∷ high ∷ []) }
{
    let at = row * 2;
    ends[at] = low;
    ends[at + 1] = high;
}

// Writes the ends of the ranges of the first `rows` rows, zeros where there is none.
fn write_ends(
    kinds: &[u8],
    values: &[i64],
    starts: &[u16],
    lows: &[i64],
    highs: &[i64],
    numbers: &[u16; 30944],
    rows: usize,
    ends: &mut [i64; 8256],
)
    requires { rows ≤ row_bound }
    ensures { ends.new ≡ sets ends.old 0 (ends_up_to (range_before (stored kinds.now values.now starts.now) lows.now highs.now) numbers.now rows) }
{
    for i in 0..rows {
        let source = usize::from(numbers[i * 7 + 6]);
        let range = range_before(kinds, values, starts, lows, highs, source).unwrap_or(Range {
            low: 0,
            high: 0,
        });
        put_range(ends, i, range.low, range.high);
    }
}

// Puts the entries of the stored lines into tables of zeros, or refusal 10 where the list has less room. The tables are lent, since a call that gave them
// back by value would take several copies of them on the stack.
fn make(
    kinds: &[u8],
    values: &[i64],
    starts: &[u16],
    lows: &[i64],
    highs: &[i64],
    relations: &[u8],
    lefts: &[u16],
    rights: &[u16],
    spans: &[u16; 2048],
    room: usize,
    made: &mut Made,
)
    requires has_lines { HasLines kinds.now relations.now lefts.now rights.now }
    requires lines_have_room { LinesHaveRoom (stored_lines kinds.now starts.now relations.now lefts.now rights.now) (length relations.now) (length lows.now) }
    requires zeros { made.old ≡ refused_made 0 }
    ensures { made.new ≡ made_tables (stored_lines kinds.now starts.now relations.now lefts.now rights.now) (length lows.now) (range_before (stored kinds.now values.now starts.now) lows.now highs.now) spans.now room }
{
    let streams = lows.len();
    let written = write_lines(
        kinds,
        starts,
        relations,
        lefts,
        rights,
        streams,
        &mut made.numbers,
    );
    let rows = written.row;
    if room < rows {
        made.numbers.fill(0);
        made.answer = refused_answer(10);
        return;
    }
    write_ends(
        kinds,
        values,
        starts,
        lows,
        highs,
        &made.numbers,
        rows,
        &mut made.ends,
    );
    put_spans(&mut made.numbers, spans);
    made.answer = NormalForm {
        refusal: 0,
        entries: rows as u32,
        added: (written.stream - streams) as u32,
    };
}

// Puts the entries of the sheet that the bytes give into tables of zeros, or the refusal's number beside the zeros.
fn store_entries(text: &[u8], room: usize, made: &mut Made)
    requires { made.old ≡ refused_made 0 }
    ensures { made.new ≡ entries_for text.now (answer_to text.now) room }
{
    let reading = reader::read(text);
    if reading.refusal != 0 {
        made.answer = refused_answer(reading.refusal);
        return;
    }
    let sheet = reading.sheet;
    let nodes = sheet.nodes;
    let streams = sheet.streams;
    let count = sheet.constraints;
    let kinds = sheet.kinds;
    let values = sheet.values;
    let starts = sheet.starts;
    let lows = sheet.lows;
    let highs = sheet.highs;
    let relations = sheet.relations;
    let lefts = sheet.lefts;
    let rights = sheet.rights;
    let spans = spans::spans(text);
    make(
        &kinds[..nodes],
        &values[..nodes],
        &starts[..nodes],
        &lows[..streams],
        &highs[..streams],
        &relations[..count],
        &lefts[..count],
        &rights[..count],
        &spans,
        room,
        made,
    );
}

// The entries of the sheet that the bytes give in tables, or the refusal's number with tables of zeros.
pub fn read_entries(text: &[u8], room: usize) -> Made
    ensures { result ≡ entries_for text.now (answer_to text.now) room }
{
    let mut made = refused(0);
    store_entries(text, room, &mut made);
    made
}

// Gives the entries of the normal form of the sheet's bytes in the lent list, with zeros behind them; in a refusal 1 to 7, or 10 where the list
// is shorter than the entries, the list is zero.
pub fn normal_form(text: &[u8], list: &mut [Entry]) -> NormalForm
    ensures { NormalOutcome blank (normal_entries text.now) text.now (length list.old) (normal_answer_of result) list.new }
{
    let mut made = refused(0);
    store_entries(text, list.len(), &mut made);
    fill(list, &made.numbers, &made.ends);
    made.answer
}
