// Whether a stored sheet and the lent tables have the sizes that the search depends on.
#![tactic(auto)]

ghost use Rattle.std.specs.Prelude.{◌≡◌, ◌+◌, ◌*◌, ◌<◌, ◌≤◌};
ghost use Rattle.sheet.specs.Refusal.{window_bound, first_bound, stream_bound};
ghost use Rattle.basics.specs.Answers.{Says};
ghost use Rattle.sizes.specs.Room.{key_size};

// Document 01's bounds, as far as the sizes of tables depend on them: on streams, constraints, firsts, D+B, letters and situations.
pub const STREAM_BOUND: usize = 8;

pub const CONSTRAINT_BOUND: usize = 32;

pub const FIRST_BOUND: usize = 8;

pub const WINDOW_BOUND: usize = 6;

pub const LETTER_BOUND: usize = 1024;

pub const SITUATION_BOUND: usize = 4096;

// How many numbers a key takes, and where in it the values of the firsts begin and the marks of the untils stand.
pub const KEY_SIZE: usize = 16;

pub const FIRSTS_PLACE: usize = 7;

pub const MARKS_PLACE: usize = 15;

// How many values the letters of a key and one more have at most, and how many values are prepared: those and the firsts'.
pub const WINDOW_ROOM: usize = 56;

pub const PREPARED_SIZE: usize = 64;

// The lengths of the lent tables.
#[derive(Clone, Copy)]
pub struct Lengths {
    pub keys: usize,
    pub heads: usize,
    pub links: usize,
    pub entries: usize,
    pub flags: usize,
}

// Whether the sheet keeps document 01's bounds. `relations` to `firsts` are the lengths of its lists.
pub fn is_ready(
    relations: usize,
    lefts: usize,
    rights: usize,
    firsts: usize,
    streams: usize,
    width: usize,
) -> bool
    ensures { Says result ((width ≤ window_bound) × (streams ≤ stream_bound) × (lefts ≡ relations) × (rights ≡ relations) × (relations ≤ 32) × (firsts ≤ first_bound)) }
{
    width <= WINDOW_BOUND
        && streams <= STREAM_BOUND
        && lefts == relations
        && rights == relations
        && relations <= CONSTRAINT_BOUND
        && firsts <= FIRST_BOUND
}

// Whether there are few streams and every letter's values are there, with room behind them, and the tables have room for as many rows as the limit.
// `values` is how many values there are. A product is taken only after the bounds under which it does not wrap.
pub fn is_lent(letters: usize, limit: usize, streams: usize, values: usize, tables: Lengths) -> bool
    ensures { Says result ((streams ≤ stream_bound) × (letters ≤ 1024) × (letters * streams + stream_bound ≤ values) × (0 < limit) × (limit ≤ 4096) × (limit * key_size ≤ tables.keys) × (limit ≤ tables.heads) × (limit ≤ tables.links) × (limit * letters ≤ tables.entries) × (limit ≤ tables.flags)) }
{
    streams <= STREAM_BOUND
        && letters <= LETTER_BOUND
        && 0 < limit
        && limit <= SITUATION_BOUND
        && letters * streams + STREAM_BOUND <= values
        && limit * KEY_SIZE <= tables.keys
        && limit <= tables.heads
        && limit <= tables.links
        && limit * letters <= tables.entries
        && limit <= tables.flags
}
