// Counts the records of a lent table: for each number of letters how many records can be followed from the start, and how many of these end in a final
// state (document 02, S-13).
//
// Each row has two numbers, its counts for the records from it on. With one letter more, the count of a row is the sum over its letters of the counts of
// the rows that they lead to. Both columns are summed in one pass over the entries. Sums are cut at 2^63, so that none wraps: the count of another row
// may pass the highest figure though that of the start does not.
#![tactic(auto)]

ghost use Rattle.std.specs.Prelude.{◌≡◌, List, ℕ, ◌*◌, ◌<◌, ◌≤◌, length, replicate};
ghost use Rattle.basics.specs.Answers.{Says};
ghost use Rattle.automaton.specs.WellFormed.{IsWellFormed};
ghost use Rattle.counting.specs.Counting.{any_state, has_final_byte, CountsRecords};
ghost use Rattle.counting.specs.Figures.{figure_of, final_figure_of, HoldsCounts, NextCounts, CountsBegun, FiguresFilled, HoldsCutFigures};

// One pass over the entries: the counts of all rows for one letter more.
fn next_counts(
    entries: &[u16],
    letters: usize,
    counts: &[u64],
    final_counts: &[u64],
    next: &mut [u64],
    final_next: &mut [u64],
)
    requires { (length entries.now ≡ length counts.now * letters) × (length counts.now ≤ length next.old) × (length counts.now ≤ length final_next.old) }
    ensures { NextCounts letters entries.now counts.now next.new (length counts.now) × NextCounts letters entries.now final_counts.now final_next.new (length counts.now) }
{
    for row in 0..counts.len() {
        let start = row * letters;
        let sums = figure_sums::row_sums(&entries[start..start + letters], counts, final_counts);
        next[row] = sums.all;
        final_next[row] = sums.ending;
    }
}

// Puts the counts for one letter more in place of the counts.
fn add_letter(entries: &[u16], letters: usize, counts: &mut [u64], final_counts: &mut [u64])
    requires { (length entries.now ≡ length counts.old * letters) × (length final_counts.old ≡ length counts.old) × (length counts.old ≤ 4096) }
    ensures { NextCounts letters entries.now counts.old counts.new (length counts.old) × NextCounts letters entries.now final_counts.old final_counts.new (length counts.old) }
{
    let mut next = [0u64; 4096];
    let mut final_next = [0u64; 4096];
    next_counts(
        entries,
        letters,
        counts,
        final_counts,
        &mut next,
        &mut final_next,
    );
    let rows = counts.len();
    counts.copy_from_slice(&next[..rows]);
    final_counts.copy_from_slice(&final_next[..rows]);
}

// The counts for no letter: the record of no letters ends in the row itself.
fn first_counts(finals: &[u8], counts: &mut [u64], final_counts: &mut [u64])
    requires { (length counts.old ≡ length finals.now) × (length final_counts.old ≡ length finals.now) }
    ensures { (k : ℕ) (entries : List ℕ) → HoldsCounts k entries finals.now any_state 0 counts.new × HoldsCounts k entries finals.now (has_final_byte finals.now) 0 final_counts.new }
{
    for (row, is_final) in finals.iter().enumerate() {
        counts[row] = 1;
        final_counts[row] = figure_sums::final_count(*is_final);
    }
}

// The counts of the start, letter after letter, up to so many letters.
fn fill_figures(
    entries: &[u16],
    letters: usize,
    most: usize,
    counts: &mut [u64],
    final_counts: &mut [u64],
    figures: &mut [u64],
    final_figures: &mut [u64],
)
    requires { CountsBegun letters entries.now (length counts.old) (length final_counts.old) × (most < length figures.old) × (most < length final_figures.old) }
    ensures { (finals : List ℕ) → FiguresFilled letters entries.now finals any_state most counts.old figures.old figures.new × FiguresFilled letters entries.now finals (has_final_byte finals) most final_counts.old final_figures.old final_figures.new }
{
    figures[0] = counts[0];
    final_figures[0] = final_counts[0];
    for t in 0..most {
        add_letter(entries, letters, counts, final_counts);
        figures[t + 1] = counts[0];
        final_figures[t + 1] = final_counts[0];
    }
}

// The figures of a table that is well formed, by way of numbers for each row.
fn count_in(
    entries: &[u16],
    finals: &[u8],
    letters: usize,
    most: usize,
    counts: &mut [u64],
    final_counts: &mut [u64],
    figures: &mut [u64],
    final_figures: &mut [u64],
)
    requires { IsWellFormed letters entries.now finals.now × (length counts.old ≡ length finals.now) × (length final_counts.old ≡ length finals.now) × (most < length figures.old) × (most < length final_figures.old) }
    ensures { HoldsCutFigures (figure_of letters entries.now finals.now) most figures.old figures.new × HoldsCutFigures (final_figure_of letters entries.now finals.now) most final_figures.old final_figures.new }
{
    first_counts(finals, counts, final_counts);
    fill_figures(
        entries,
        letters,
        most,
        counts,
        final_counts,
        figures,
        final_figures,
    );
}

// Counts the records of a table that is well formed, up to so many letters.
fn count_rows(
    entries: &[u16],
    finals: &[u8],
    letters: usize,
    most: usize,
    figures: &mut [u64],
    final_figures: &mut [u64],
)
    requires { IsWellFormed letters entries.now finals.now × (most < length figures.old) × (most < length final_figures.old) }
    ensures { HoldsCutFigures (figure_of letters entries.now finals.now) most figures.old figures.new × HoldsCutFigures (final_figure_of letters entries.now finals.now) most final_figures.old final_figures.new }
{
    let rows = finals.len();
    let mut counts = [0u64; 4096];
    let mut final_counts = [0u64; 4096];
    count_in(
        entries,
        finals,
        letters,
        most,
        &mut counts[..rows],
        &mut final_counts[..rows],
        figures,
        final_figures,
    );
}

// Whether the table is well formed and both lists have room for the figures up to so many letters.
fn can_be_counted(
    entries: &[u16],
    finals: &[u8],
    letters: usize,
    most: usize,
    room: usize,
    final_room: usize,
) -> bool
    ensures { Says result (IsWellFormed letters entries.now finals.now × (most < room) × (most < final_room)) }
{
    most < room && most < final_room && tables::is_well_formed(entries, finals, letters)
}

// For each number of letters up to `most`: how many records of so many letters can be followed from row 0 of the table, and how many of them end in a
// final row. False, with zeros in both lists, where the table is not well formed, a list is too short, or a figure is above 9,223,372,036,854,775,807.
pub fn count_records(
    entries: &[u16],
    finals: &[u8],
    letters: usize,
    most: usize,
    figures: &mut [u64],
    final_figures: &mut [u64],
) -> bool
    ensures { CountsRecords letters entries.now finals.now most (length figures.old) (length final_figures.old) result figures.new final_figures.new }
{
    figures.fill(0);
    final_figures.fill(0);
    if !can_be_counted(
        entries,
        finals,
        letters,
        most,
        figures.len(),
        final_figures.len(),
    ) {
        return false;
    }
    count_rows(entries, finals, letters, most, figures, final_figures);
    if figure_sums::are_bounded(figures) {
        return true;
    }
    figures.fill(0);
    final_figures.fill(0);
    false
}
