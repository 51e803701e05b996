// The envelope of a row of a stored graph: its letters from the first that leads to a live row to the last. Outside the envelope a row leads to no live row, so
// that later passes need not look there.
#![tactic(auto)]

ghost use Rattle.std.specs.Prelude.{◌≡◌, ◌+◌, ◌*◌, ◌≤◌, length, get_or};
ghost use Rattle.basics.specs.Answers.{Says};
ghost use Rattle.marks.specs.Marks.{Marked};
ghost use Rattle.row_envelopes.specs.Envelopes.{IsBegin, IsEnd, envelope_begin, envelope_end, StoredEnvelope, Enveloped, EnvelopesFit, EnvelopesOutcome};

use marks::number_at;

// The first letter of an envelope, and the one after the last.
#[derive(Clone, Copy)]
pub struct Envelope {
    pub begin: usize,
    pub end: usize,
}

// The envelope that a number stands for: the begin times 65,536 and the end. Where there are more letters than 65,535, every envelope is of all letters. A number that
// is no envelope's is cut to one.
pub fn envelope_of(number: u32, letters: usize) -> Envelope
    ensures { (result.begin ≡ envelope_begin letters number) × (result.end ≡ envelope_end letters number) }
{
    if letters > 65535 {
        return Envelope {
            begin: 0,
            end: letters,
        };
    }
    let end = letters.min((number % 65536) as usize);
    let begin = end.min((number / 65536) as usize);
    Envelope { begin, end }
}

// The first of the letters whose entry, from `start` on, names a live row, or their number.
fn find_begin(entries: &[u16], start: usize, letters: usize, live: &[u32]) -> usize
    requires { start + letters ≤ length entries.now }
    ensures { IsBegin (λ a. Marked live.now (get_or entries.now (start + a) 0)) letters result }
{
    for a in 0..letters {
        if number_at(live, entries[start + a]) == 1 {
            return a;
        }
    }
    letters
}

// One more than the last of the letters from `begin` on whose entry names a live row, or `begin`.
fn find_end(entries: &[u16], start: usize, begin: usize, letters: usize, live: &[u32]) -> usize
    requires { (begin ≤ letters) × (start + letters ≤ length entries.now) }
    ensures { IsEnd (λ a. Marked live.now (get_or entries.now (start + a) 0)) letters begin result }
{
    for last in (begin..letters).rev() {
        if number_at(live, entries[start + last]) == 1 {
            return last + 1;
        }
    }
    begin
}

// The number of a row's envelope.
fn row_envelope(entries: &[u16], start: usize, letters: usize, live: &[u32]) -> u32
    requires { start + letters ≤ length entries.now }
    ensures { StoredEnvelope (λ a. Marked live.now (get_or entries.now (start + a) 0)) letters result }
{
    if letters > 65535 {
        return 0;
    }
    let begin = find_begin(entries, start, letters, live);
    let end = find_end(entries, start, begin, letters, live);
    begin as u32 * 65536 + end as u32
}

// Stores the envelope of each row.
fn store_envelopes(entries: &[u16], letters: usize, live: &[u32], envelopes: &mut [u32])
    requires { EnvelopesFit letters entries.now live.now envelopes.old }
    ensures { Enveloped letters entries.now live.now envelopes.new (length live.now) }
{
    for (row, envelope) in envelopes.iter_mut().enumerate() {
        *envelope = row_envelope(entries, row * letters, letters, live);
    }
}

// Whether there is room for the entries of the rows, and for the envelope of each.
fn has_room(rows: usize, letters: usize, entries: usize, envelopes: usize) -> bool
    ensures { Says result ((rows * letters ≤ entries) × (envelopes ≡ rows)) }
{
    envelopes == rows && basics::rows_fit(rows, letters, entries)
}

// Stores the envelope of each row. If the rows are more than the entries have, or there are not as many envelopes, nothing changes.
pub fn find_envelopes(entries: &[u16], letters: usize, live: &[u32], envelopes: &mut [u32])
    ensures { EnvelopesOutcome letters entries.now live.now envelopes.old envelopes.new }
{
    if has_room(live.len(), letters, entries.len(), envelopes.len()) {
        store_envelopes(entries, letters, live, envelopes);
    }
}
