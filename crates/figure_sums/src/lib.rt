// The sums by which records of a lent table are counted (document 02, S-13): over the letters of one row, cut at 2^63, so that none wraps; and whether figures are
// within their bound.
#![tactic(auto)]

ghost use Rattle.std.specs.Prelude.{◌≡◌, cond, ◌+◌, min, eqb, length, get_or};
ghost use Rattle.basics.specs.Answers.{Says};
ghost use Rattle.figure_sums.specs.Sums.{figure_cut, row_sum, AreBounded};

// "a figure above 9,223,372,036,854,775,807"
const HIGHEST_FIGURE: u64 = 9223372036854775807;
// One more, at which counts are cut.
const FIGURE_CUT: u64 = 9223372036854775808;

// The two sums of a row: over all records, and over those that end in a final state.
#[derive(Clone, Copy)]
pub struct RowSums {
    pub all: u64,
    pub ending: u64,
}

// The sum of two numbers, cut. The sum itself can be too large, and stays at the top of its type then.
fn add_cut(sum: u64, more: u64) -> u64
    ensures { result ≡ min (sum + more) figure_cut }
{
    sum.saturating_add(more).min(FIGURE_CUT)
}

// The number of the row that an entry names; 0 where it names none.
fn count_at(counts: &[u64], entry: u16) -> u64
    ensures { result ≡ get_or counts.now entry 0 }
{
    let row = entry as usize;
    if row < counts.len() { counts[row] } else { 0 }
}

// The sums over the letters of a row.
pub fn row_sums(row: &[u16], counts: &[u64], final_counts: &[u64]) -> RowSums
    ensures { (result.all ≡ row_sum row.now counts.now (length row.now)) × (result.ending ≡ row_sum row.now final_counts.now (length row.now)) }
{
    let mut all: u64 = 0;
    let mut ending: u64 = 0;
    for next in row {
        all = add_cut(all, count_at(counts, *next));
        ending = add_cut(ending, count_at(final_counts, *next));
    }
    RowSums { all, ending }
}

// One record of no letters from a final row, and none from another.
pub fn final_count(is_final: u8) -> u64
    ensures { result ≡ cond (eqb is_final 1) 1 0 }
{
    u64::from(is_final == 1)
}

// Whether no figure is above the highest.
pub fn are_bounded(figures: &[u64]) -> bool
    ensures { Says result (AreBounded figures.now) }
{
    figures.iter().all(|figure| *figure <= HIGHEST_FIGURE)
}
