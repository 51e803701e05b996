// Turns a graph in lent tables into the one table of its language. Each entry of a graph is a successor or 65,535, each flag 1 or 0;
// the work tables have one number a row.
#![tactic(auto)]

ghost use Rattle.std.specs.Prelude.{◌≡◌, [], ◌∷◌, ◌+◌, ◌*◌, ◌<◌, ◌≤◌, length};
ghost use Rattle.basics.specs.Answers.{Says};
ghost use Rattle.minimise.specs.Outcome.{MinimiseOutcome};
ghost use Rattle.minimise.specs.Compacting.{IsNumbered, IsState, IsNameable, IsMoved, IsCompacted};
ghost use Rattle.minimise.specs.Reducing.{RowsJudged, HasWord, Tabled, Ran};

use automaton::NO_STATE;

// The answer: 0 and the number of states, or a refusal and 0. Laid out as in C, so that an exported function can give it back.
#[repr(C)]
#[derive(Clone, Copy)]
pub struct Minimised {
    pub refusal: u32,
    pub states: u32,
}

// Numbers the classes in the order of their first rows: `number` has the number of each first row, `first` the first row of each
// number. Gives how many there are.
fn number_classes(class: &[u32], number: &mut [u32], first: &mut [u32]) -> usize
    requires { (length class.now < 65536) × (length number.old ≡ length class.now) × (length first.old ≡ length class.now) }
    ensures { IsNumbered class.now number.new first.new (length class.now) result }
{
    let mut count = 0;
    for (row, c) in class.iter().enumerate() {
        if *c as usize == row + 1 {
            number[row] = count as u32;
            first[count] = row as u32;
            count += 1;
        }
    }
    count
}

// The state that an entry leads to.
fn state_of(class: &[u32], number: &[u32], entry: u16) -> u16
    requires { IsNameable class.now number.now }
    ensures { IsState class.now number.now entry result }
{
    let c = marks::number_at(class, entry) as usize;
    if c == 0 {
        NO_STATE
    } else {
        number[c - 1] as u16
    }
}

// Moves a row up from `from` to `to`, with each entry renamed.
fn move_row(
    entries: &mut [u16],
    from: usize,
    to: usize,
    letters: usize,
    class: &[u32],
    number: &[u32],
)
    requires to_le_from { (to ≤ from) × (from + letters ≤ length entries.old) }
    requires nameable { IsNameable class.now number.now }
    ensures { IsMoved class.now number.now entries.old entries.new from to letters (from + letters) }
{
    for a in 0..letters {
        entries[to + a] = state_of(class, number, entries[from + a]);
    }
}

// Moves the first rows of the classes up to the front, with each entry renamed.
fn move_rows(
    entries: &mut [u16],
    finals: &mut [u8],
    letters: usize,
    class: &[u32],
    number: &[u32],
    first: &[u32],
    count: usize,
)
    requires numbered { IsNumbered class.now number.now first.now (length class.now) count }
    requires nameable { IsNameable class.now number.now }
    requires letters_in_bounds { (length class.now * letters ≤ length entries.old) × (length class.now ≤ length finals.old) × (length first.now ≡ length class.now) }
    ensures { IsCompacted letters class.now number.now first.now entries.old finals.old entries.new finals.new count }
{
    for state in 0..count {
        let row = first[state] as usize;
        move_row(
            entries,
            row * letters,
            state * letters,
            letters,
            class,
            number,
        );
        finals[state] = finals[row];
    }
}

// The refusal: 11 if the tables hold no graph of as many rows as `live` has, 9 if the graph's language has no word. Or 0; then the live
// rows are marked.
fn find_refusal(entries: &[u16], flags: &[u8], letters: usize, live: &mut [u32]) -> u32
    ensures { RowsJudged entries.now flags.now letters (length live.old) result live.new }
{
    if !stored_graph::is_graph(entries, flags, letters, live.len()) {
        return 11;
    }
    live_rows::find_live(entries, flags, letters, live);
    if live[0] == 1 { 0 } else { 9 }
}

// Puts the table into the first rows, from a graph whose live rows are marked, on work tables of as many rows. Gives the number of states.
fn build_table(
    entries: &mut [u16],
    flags: &mut [u8],
    letters: usize,
    live: &[u32],
    class: &mut [u32],
    next: &mut [u32],
    heads: &mut [u32],
    links: &mut [u32],
    envelopes: &mut [u32],
) -> usize
    requires has_word { HasWord entries.old flags.old letters (length live.now) live.now }
    requires class_len { (length class.old ≡ length live.now) × (length next.old ≡ length live.now) × (length heads.old ≡ length live.now) × (length links.old ≡ length live.now) × (length envelopes.old ≡ length live.now) }
    ensures { Tabled entries.old flags.old letters (length live.now) result entries.new flags.new }
{
    live_rows::find_finals(entries, letters, live, next, flags);
    refine::refine(
        entries, letters, live, flags, class, next, heads, links, envelopes,
    );
    let count = number_classes(class, next, heads);
    move_rows(entries, flags, letters, class, next, heads, count);
    count
}

// Whether six tables have room for `rows` rows.
fn have_room(rows: usize, a: usize, b: usize, c: usize, d: usize, e: usize, f: usize) -> bool
    ensures { Says result ((rows ≤ a) × (rows ≤ b) × (rows ≤ c) × (rows ≤ d) × (rows ≤ e) × (rows ≤ f)) }
{
    rows <= a && rows <= b && rows <= c && rows <= d && rows <= e && rows <= f
}

// The table before what lies beyond the used rows is cleared. The work tables are cut to the rows.
fn run(
    entries: &mut [u16],
    flags: &mut [u8],
    letters: usize,
    rows: usize,
    live: &mut [u32],
    class: &mut [u32],
    next: &mut [u32],
    heads: &mut [u32],
    links: &mut [u32],
    envelopes: &mut [u32],
) -> Minimised
    ensures { Ran entries.old flags.old letters rows (live.old ∷ (class.old ∷ (next.old ∷ (heads.old ∷ (links.old ∷ (envelopes.old ∷ [])))))) result.refusal result.states entries.new flags.new }
{
    if !have_room(
        rows,
        live.len(),
        class.len(),
        next.len(),
        heads.len(),
        links.len(),
        envelopes.len(),
    ) {
        return Minimised {
            refusal: 11,
            states: 0,
        };
    }
    let refusal = find_refusal(entries, flags, letters, &mut live[..rows]);
    if refusal != 0 {
        return Minimised { refusal, states: 0 };
    }
    let states = build_table(
        entries,
        flags,
        letters,
        &live[..rows],
        &mut class[..rows],
        &mut next[..rows],
        &mut heads[..rows],
        &mut links[..rows],
        &mut envelopes[..rows],
    );
    Minimised {
        refusal: 0,
        states: states as u32,
    }
}

// Turns a graph into the table of its language, in place: refusal 0 and the number of states. Everything beyond the used rows and
// every work table is 0 afterwards. 9 if the language has no word, 11 if the tables hold no graph or a work table has fewer rows;
// then every table is 0.
pub fn minimise(
    entries: &mut [u16],
    flags: &mut [u8],
    letters: usize,
    rows: usize,
    live: &mut [u32],
    class: &mut [u32],
    next: &mut [u32],
    heads: &mut [u32],
    links: &mut [u32],
    envelopes: &mut [u32],
) -> Minimised
    ensures { MinimiseOutcome (record { entries = entries.entry.now; flags = flags.old; work = live.old ∷ (class.old ∷ (next.old ∷ (heads.old ∷ (links.old ∷ (envelopes.old ∷ []))))) }) letters rows result.refusal result.states (record { entries = entries.exit.now; flags = flags.new; work = live.new ∷ (class.new ∷ (next.new ∷ (heads.new ∷ (links.new ∷ (envelopes.new ∷ []))))) }) }
{
    let answer = run(
        entries, flags, letters, rows, live, class, next, heads, links, envelopes,
    );
    let states = answer.states as usize;
    clearing::clear_tables(
        entries,
        states * letters,
        flags,
        states,
        live,
        class,
        next,
        heads,
        links,
        envelopes,
    );
    answer
}
