// Lends the rows in which programs compile a sheet.
#![tactic(auto)]

ghost use Rattle.std.specs.Prelude.{◌≡◌, ◌≤◌, length, replicate};
ghost use Rattle.outcome.specs.Compile.{CompileCall};
ghost use Rattle.compiled.specs.Answer.{answer_of};
ghost use Rattle.lend.specs.Lend.{rows_lent, room_of_rows, tables_of_rows, LentCall};

use compiled::Compiled;

// "256 rows, or 32,768 divided by the letters, cut to a whole number, if that is fewer"
pub fn rows_lent(letters: usize) -> usize
    ensures { result ≡ rows_lent letters }
{
    if letters == 0 {
        0
    } else {
        (32768 / letters).min(256)
    }
}

// Room for the keys, with 16 numbers a row, and for a work table with one.
pub fn key_room() -> [u32; 4096]
    ensures { (4096 ≡ length result) × (result ≡ replicate 4096 0) }
{
    [0; 4096]
}

pub fn work_room() -> [u32; 256]
    ensures { (256 ≡ length result) × (result ≡ replicate 256 0) }
{
    [0; 256]
}

// Compiles the text in tables of so many rows.
fn compile_in_rows(text: &[u8], rows: usize, entries: &mut [u16], finals: &mut [u8]) -> Compiled
    requires { rows ≤ 256 }
    ensures { CompileCall text.now (room_of_rows (length entries.old) (length finals.old) rows) (answer_of result) (tables_of_rows rows entries.new finals.new) }
{
    let key_size = rows * 16;
    let mut keys = key_room();
    let mut live = work_room();
    let mut class = work_room();
    let mut next = work_room();
    let mut heads = work_room();
    let mut links = work_room();
    let mut envelopes = work_room();
    let compiled = compile::compile(
        text,
        entries,
        finals,
        &mut keys[..key_size],
        &mut live[..rows],
        &mut class[..rows],
        &mut next[..rows],
        &mut heads[..rows],
        &mut links[..rows],
        &mut envelopes[..rows],
    );
    compiled_sheet::answer(compiled)
}

// Compiles the text in the first rows of the tables, and clears what stands behind them.
fn compile_parts(text: &[u8], letters: usize, entries: &mut [u16], finals: &mut [u8]) -> Compiled
    requires { (length entries.old ≡ 32768) × (length finals.old ≡ 256) }
    ensures { LentCall text.now letters (answer_of result) entries.new finals.new }
{
    let rows = rows_lent(letters);
    let room = rows * letters;
    basics::clear_from(entries, room, 0);
    basics::clear_from(finals, rows, 0);
    compile_in_rows(text, rows, &mut entries[..room], &mut finals[..rows])
}

// Compiles the text in the rows lent for a sheet with so many letters: its table in the first rows of the arrays, and zeros behind them.
pub fn compile_lent(
    text: &[u8],
    letters: usize,
    entries: &mut [u16; 32768],
    finals: &mut [u8; 256],
) -> Compiled
    ensures { LentCall text.now letters (answer_of result) entries.new finals.new }
{
    compile_parts(text, letters, entries, finals)
}
