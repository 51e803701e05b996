// Fills lent bytes with the lines that `statistics` prints: a word and a number each, and those alone that are known with a refusal.
#![tactic(auto)]

ghost use Rattle.std.specs.Prelude.{◌≡◌, suc, ◌≤◌, length};
ghost use Rattle.print.specs.Append.{Appends};
ghost use Rattle.statistics_text.specs.Text.{sizes_known, situations_known, known_line, sheet_lines, statistics_text};

// The refusal's number or 0, the letters, D and B of a sheet, its situations, the states of its table, and the rows lent.
#[derive(Clone, Copy)]
pub struct Statistics {
    pub refusal: u32,
    pub letters: u64,
    pub ahead: u64,
    pub back: u64,
    pub situations: u64,
    pub states: u64,
    pub rows: u64,
}

// Whether the sheet was read, so that its sizes are known.
fn sizes_known(refusal: u32) -> bool
    ensures { result ≡ sizes_known refusal }
{
    refusal == 0 || 7 < refusal
}

// Whether there are no more situations than rows, so that they are known.
fn situations_known(refusal: u32) -> bool
    ensures { result ≡ situations_known refusal }
{
    refusal == 0 || refusal == 9
}

// The line of a word and a number, where it is known, from the place where the last line ended.
fn append_known(out: &mut [u8], at: usize, known: bool, word: &[u8], number: u64) -> usize
    requires { at ≤ suc (length out.old) }
    ensures { Appends at (known_line known word.now number) out.old out.new result }
{
    if !known {
        return at;
    }
    if out.len() < at {
        return at;
    }
    let none = [0i64; 1];
    at + print::named_line(word, &none[..0], number, &mut out[at..])
}

// The lines of the letters and of the times that the rules look ahead and back, at the front of the bytes.
fn fill_sheet(statistics: Statistics, known: bool, out: &mut [u8]) -> usize
    ensures { Appends 0 (sheet_lines known statistics) out.old out.new result }
{
    let ahead_at = append_known(out, 0, known, b"letters", statistics.letters);
    let back_at = append_known(out, ahead_at, known, b"ahead", statistics.ahead);
    append_known(out, back_at, known, b"back", statistics.back)
}

// All lines at the front of the bytes: how many bytes they take, or one more than the lent bytes where they have no room there.
pub fn fill(statistics: Statistics, out: &mut [u8]) -> usize
    ensures { Appends 0 (statistics_text statistics) out.old out.new result }
{
    let refusal = statistics.refusal;
    let known = sizes_known(refusal);
    let counted = situations_known(refusal);
    let situations_at = fill_sheet(statistics, known, out);
    let states_at = append_known(
        out,
        situations_at,
        counted,
        b"situations",
        statistics.situations,
    );
    let rows_at = append_known(out, states_at, refusal == 0, b"states", statistics.states);
    let refused_at = append_known(out, rows_at, known, b"rows", statistics.rows);
    append_known(out, refused_at, refusal != 0, b"refused", refusal as u64)
}
