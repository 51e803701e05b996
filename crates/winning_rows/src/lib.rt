// The play table of a lent table (document 02, S-7): the rows from which a controller can force a final row for ever, and its letter to each choice of the
// environment.
//
// Each row has a number, its rank, and is ranked if that is not 0. First all rows have the rank 1, and rows without an answer to some choice into a ranked row
// lose it, until none is left: the others are safe. Then the safe rows that are final keep the rank 1, and each row with an answer to every choice into ranked
// rows gets the next number. Rows are looked at in sweeps that go down and up by turns, so that a chain of rows takes a few sweeps whichever way it leads. At
// last a row plays, to each choice, the first letter into a row of a lower rank, and a final one into a final one. In a compiled table a final row leads to final
// rows only; in another one a final row may be left without such a letter.
#![tactic(auto)]

ghost use Rattle.std.specs.Prelude.{◌≡◌, cond, ℕ, ◌*◌, ◌≤◌, ◌<◌, ◌-◌, length, get_or, replicate};
ghost use Rattle.basics.specs.Answers.{Says};
ghost use Rattle.automaton.specs.Stored.{entry_at, final_at};
ghost use Rattle.automaton.specs.Ranking.{turned_to, AllTurned, highest_next, PlaysRanking};
ghost use Rattle.winning_rows.specs.Answers.{ChoicesFit, AreAnswers, AllAnswered};
ghost use Rattle.winning_rows.specs.Sweeps.{lent_game, GameFits, RowTurned, RowsSwept, RowsRanked};
ghost use Rattle.winning_rows.specs.Play.{HasPlayRoom, PlayFits, PlayOutcome};

use automaton::{MOST_ROWS, NO_STATE};
use marks::number_at;

// Puts into `answers`, one number for each choice, the first letter of a row with that choice whose entry names a row of the rank 1 to `highest`; 65,535 where
// there is none.
fn answer_row(row: &[u16], choice: &[u16], ranks: &[u32], highest: u32, answers: &mut [u16])
    requires { (length row.now ≡ length choice.now) × ChoicesFit choice.now (length answers.old) }
    ensures { AreAnswers row.now choice.now ranks.now highest 0 answers.new }
{
    answers.fill(NO_STATE);
    for letter in (0..row.len()).rev() {
        let rank = number_at(ranks, row[letter]);
        if rank != 0 && rank <= highest {
            answers[choice[letter] as usize] = letter as u16;
        }
    }
}

// Whether every choice has an answer.
fn all_answered(answers: &[u16]) -> bool
    ensures { Says result (AllAnswered answers.now) }
{
    answers.iter().all(|answer| *answer != NO_STATE)
}

// The rank that a row gets if it is the next to be turned.
fn turned_to(to: bool, next: u32) -> u32
    ensures { result ≡ turned_to to next }
{
    if to { next } else { 0 }
}

// RankTurns one row: one with an answer to every choice into ranked rows is ranked, or a ranked row without one loses its rank. Whether it was turned.
fn turn_row(
    entries: &[u16],
    choice: &[u16],
    to: bool,
    next: u32,
    row: usize,
    ranks: &mut [u32],
    answers: &mut [u16],
) -> bool
    requires { GameFits entries.now choice.now (length answers.old) (length ranks.old) × (row < length ranks.old) }
    ensures { (final : ℕ → ℕ) → RowTurned (lent_game entries.now choice.now (length answers.old) (length ranks.old) final) to next row ranks.old ranks.new result }
{
    if (ranks[row] != 0) == to {
        return false;
    }
    let start = row * choice.len();
    let end = start + choice.len();
    answer_row(&entries[start..end], choice, ranks, 4294967295, answers);
    if all_answered(answers) != to {
        return false;
    }
    ranks[row] = turned_to(to, next);
    true
}

// The row that is the i-th of a sweep, from the last row to the first or the other way.
fn row_of(i: usize, rows: usize, down: bool) -> usize
    requires { i < rows }
    ensures { result ≡ cond down (rows - 1 - i) i }
{
    if down { rows - 1 - i } else { i }
}

// A sweep over all rows. Gives the next number after it: the same if no row was turned.
fn sweep(
    entries: &[u16],
    choice: &[u16],
    to: bool,
    first: u32,
    down: bool,
    ranks: &mut [u32],
    answers: &mut [u16],
) -> u32
    requires { GameFits entries.now choice.now (length answers.old) (length ranks.old) × (first ≤ 4098) }
    ensures { (final : ℕ → ℕ) → RowsSwept (lent_game entries.now choice.now (length answers.old) (length ranks.old) final) to (λ s. s < length ranks.old) ranks.old first ranks.new result }
{
    let rows = ranks.len();
    let mut next = first;
    for i in 0..rows {
        let row = row_of(i, rows, down);
        if turn_row(entries, choice, to, next, row, ranks, answers) {
            next += 1;
        }
    }
    next
}

// Sweeps down and up by turns until one turns nothing.
fn sweeps(entries: &[u16], choice: &[u16], to: bool, ranks: &mut [u32], answers: &mut [u16])
    requires { GameFits entries.now choice.now (length answers.old) (length ranks.old) }
    ensures { (final : ℕ → ℕ) → AllTurned (lent_game entries.now choice.now (length answers.old) (length ranks.old) final) to ranks.old 2 ranks.new }
{
    let mut next = 2;
    let mut down = true;
    loop {
        let after = sweep(entries, choice, to, next, down, ranks, answers);
        if after == next {
            break;
        }
        next = after;
        down = !down;
    }
}

// Ranks the rows. `answers` is work room, one number for each choice.
fn rank_rows(entries: &[u16], finals: &[u8], choice: &[u16], ranks: &mut [u32], answers: &mut [u16])
    requires { GameFits entries.now choice.now (length answers.old) (length ranks.old) }
    ensures { RowsRanked (lent_game entries.now choice.now (length answers.old) (length ranks.old) (final_at finals.now)) ranks.new }
{
    ranks.fill(1);
    sweeps(entries, choice, false, ranks, answers);
    marks::keep_flagged(finals, ranks);
    sweeps(entries, choice, true, ranks, answers);
}

// The highest rank to which the play may go from a row of this rank.
fn highest_next(rank: u32) -> u32
    ensures { result ≡ highest_next rank }
{
    if rank <= 1 { rank } else { rank - 1 }
}

// Fills the rows of the play table by the ranks.
fn fill_play(entries: &[u16], choice: &[u16], choices: usize, ranks: &[u32], play: &mut [u16])
    requires { GameFits entries.now choice.now choices (length ranks.now) × (length ranks.now * choices ≤ length play.old) }
    ensures { (final : ℕ → ℕ) → PlaysRanking (lent_game entries.now choice.now choices (length ranks.now) final) ranks.now (entry_at choices play.new) }
{
    for row in 0..ranks.len() {
        let start = row * choice.len();
        let end = start + choice.len();
        let from = row * choices;
        let to = from + choices;
        answer_row(
            &entries[start..end],
            choice,
            ranks,
            highest_next(ranks[row]),
            &mut play[from..to],
        );
    }
}

// Whether the choice of each letter is one of so many.
fn are_choices(choice: &[u16], choices: usize) -> bool
    ensures { Says result ((a : ℕ) → a < length choice.now → get_or choice.now a 0 < choices) }
{
    choice.iter().all(|number| (*number as usize) < choices)
}

// Whether there are rows, not too many rows and letters, and room for them.
fn has_room(rows: usize, letters: usize, choices: usize, entries: usize, play: usize) -> bool
    ensures { Says result (HasPlayRoom rows letters choices entries play) }
{
    rows != 0
        && rows <= MOST_ROWS
        && letters < 65535
        && basics::rows_fit(rows, letters, entries)
        && basics::rows_fit(rows, choices, play)
}

// Whether the rows of a lent table can be played.
fn can_play(entries: &[u16], choice: &[u16], choices: usize, rows: usize, room: usize) -> bool
    ensures { Says result (PlayFits entries.now choice.now choices rows room) }
{
    has_room(rows, choice.len(), choices, entries.len(), room) && are_choices(choice, choices)
}

// How many numbers of the play table are kept: those of its rows, or none.
fn numbers_kept(won: bool, rows: usize, choices: usize, room: usize) -> usize
    requires { rows * choices ≤ room }
    ensures { result ≡ cond won (rows * choices) 0 }
{
    if won { rows * choices } else { 0 }
}

// Fills the play table of as many rows as there are ranks, and clears the rest of it, if row 0 is ranked; whether it is. If not,
// or if the rows cannot be played, the play table is cleared. `ranks` is work room and is zero afterwards.
pub fn find_play(
    entries: &[u16],
    finals: &[u8],
    choice: &[u16],
    choices: usize,
    ranks: &mut [u32],
    play: &mut [u16],
) -> bool
    ensures { PlayOutcome entries.now finals.now choice.now choices (length ranks.old) (length play.old) result play.new × (ranks.new ≡ replicate (length ranks.old) 0) }
{
    if !can_play(entries, choice, choices, ranks.len(), play.len()) {
        play.fill(0);
        ranks.fill(0);
        return false;
    }
    rank_rows(entries, finals, choice, ranks, &mut play[..choices]);
    let won = ranks[0] != 0;
    fill_play(entries, choice, choices, ranks, play);
    let kept = numbers_kept(won, ranks.len(), choices, play.len());
    basics::clear_from(play, kept, 0);
    ranks.fill(0);
    won
}
