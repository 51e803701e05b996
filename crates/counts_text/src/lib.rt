// Writes the lines that `record_counts` prints to lent bytes: a number of letters, its figure, and that of the last column.
#![tactic(auto)]

ghost use Rattle.std.specs.Prelude.{◌≡◌, suc, ◌≤◌, min, pos, length};
ghost use Rattle.print.specs.Append.{Appends};
ghost use Rattle.counts_text.specs.Counts.{shown_number, figures_line, listed_text};

// The number as a signed one; one above the highest figure counts as the highest.
fn shown(number: u64) -> i64
    ensures { result ≡ pos (shown_number number) }
{
    number.min(i64::MAX as u64) as i64
}

// The line of one number of letters, from the place where the last one ended.
fn append_line(out: &mut [u8], at: usize, letters: u64, figure: u64, final_figure: u64) -> usize
    requires { at ≤ suc (length out.old) }
    ensures { Appends at (figures_line (shown_number letters) (shown_number figure) (shown_number final_figure)) out.old out.new result }
{
    if out.len() < at {
        return at;
    }
    let values = [shown(letters), shown(figure), shown(final_figure)];
    at + print::numbers_line(&values, &mut out[at..])
}

// The lines of the figures in two lists, as many as both hold. An answer is how many bytes they take, or one more than the lent bytes where they have no
// room there.
pub fn write_figures(figures: &[u64], final_figures: &[u64], out: &mut [u8]) -> usize
    ensures { Appends 0 (listed_text figures.now final_figures.now (min (length figures.now) (length final_figures.now))) out.old out.new result }
{
    let mut to = 0;
    for letters in 0..figures.len().min(final_figures.len()) {
        to = append_line(
            out,
            to,
            letters as u64,
            figures[letters],
            final_figures[letters],
        );
    }
    to
}
