// Finds all situations of a sheet: their keys in rows, and the graph of their successors.
#![tactic(auto)]

mod chains;

ghost use Rattle.std.specs.Prelude.{◌≡◌, is_err, ◌+◌, ◌*◌, ◌≤◌, ◌<◌, eqb, length};
ghost use Rattle.sizes.specs.Room.{key_size};
ghost use Rattle.prepare.specs.Key.{digit};
ghost use Rattle.prepare.specs.Prepared.{Prepared, IsPreparable};
ghost use Rattle.extend.specs.Step.{store_of};
ghost use Rattle.explore.specs.Chains.{row_at, KeyTables};
ghost use Rattle.explore.specs.Search.{every_mark, Settled, CanFollow, FollowsLetter, CanSearch, SearchFinds};
ghost use Rattle.explore.specs.Exploration.{explore_tables, Explores, Discards, ExploresStored};

use chains::{bucket, find, insert};
use extend::extend;
use prepare::{Dimensions, prepare};
use sizes::{KEY_SIZE, Lengths, MARKS_PLACE, PREPARED_SIZE, is_lent, is_ready};

// How many letters there are, how many rows there may be, and the marks of all untils.
#[derive(Clone, Copy)]
struct Bounds {
    letters: usize,
    limit: usize,
    every: u32,
}

// Why there are no rows: the sheet or the tables have not the sizes that the search depends on, or there are more rows than the limit.
#[derive(Clone, Copy, PartialEq, Eq)]
pub enum Unexplored {
    NotReady,
    Full,
}

// The marks of all untils, when each is done.
fn every_mark(relations: &[u8]) -> u32
    requires { length relations.now ≤ 32 }
    ensures { result ≡ every_mark 0 relations.now }
{
    let mut marks: u64 = 0;
    for &relation in relations {
        if relation == nodes::UNTIL_RELATION {
            marks = marks * 2 + 1;
        }
    }
    marks as u32
}

fn flag(marks: u32, every: u32) -> u8
    ensures { result ≡ digit (eqb marks every) }
{
    u8::from(marks == every)
}

// The row that holds the key. A new key becomes row n, with its flag, if there is room.
fn settle(
    heads: &mut [u32],
    links: &mut [u32],
    keys: &mut [u32],
    flags: &mut [u8],
    n: usize,
    limit: usize,
    every: u32,
    key: &[u32],
) -> usize
    requires key_tables { KeyTables heads.old links.old keys.old n }
    requires key_len { (length key.now ≡ key_size) × (limit ≤ 4096) × (limit ≤ length links.old) × (limit * key_size ≤ length keys.old) × (limit ≤ length flags.old) }
    ensures { Settled limit every n key.now keys.old flags.old heads.new links.new keys.new flags.new result }
{
    let h = bucket(key, heads.len());
    if let Some(row) = find(heads, links, keys, n, h, key) {
        return row;
    }
    if n < limit {
        insert(heads, links, keys, n, h, key);
        flags[n] = flag(key[MARKS_PLACE], every);
    }
    n
}

// The entry of row s for letter a: the row of the longer record's key, which becomes row n if it is new and there is room, or 65,535 for none.
// What is prepared for the row stays so.
fn follow(
    kinds: &[u8; 1024],
    values: &[i64; 1024],
    starts: &[u16; 1024],
    relations: &[u8],
    lefts: &[u16],
    rights: &[u16],
    first_nodes: &[u16],
    letter_values: &[i64],
    dimensions: Dimensions,
    bounds: Bounds,
    keys: &mut [u32],
    heads: &mut [u32],
    links: &mut [u32],
    flags: &mut [u8],
    n: usize,
    s: usize,
    a: u32,
    prepared: &mut [i64; PREPARED_SIZE],
) -> usize
    requires { CanFollow (store_of kinds.now values.now starts.now relations.now lefts.now rights.now first_nodes.now letter_values.now dimensions.streams dimensions.ahead dimensions.width) bounds.limit n s a keys.old heads.old links.old flags.old prepared.old }
    ensures { FollowsLetter (store_of kinds.now values.now starts.now relations.now lefts.now rights.now first_nodes.now letter_values.now dimensions.streams dimensions.ahead dimensions.width) bounds.limit bounds.every n s a keys.old flags.old heads.new links.new keys.new flags.new prepared.new result }
{
    let start = s * KEY_SIZE;
    let end = start + KEY_SIZE;
    let mut fresh = [0u32; KEY_SIZE];
    if extend(
        kinds,
        values,
        starts,
        relations,
        lefts,
        rights,
        first_nodes,
        letter_values,
        dimensions,
        &keys[start..end],
        a,
        prepared,
        &mut fresh,
    ) {
        return settle(
            heads,
            links,
            keys,
            flags,
            n,
            bounds.limit,
            bounds.every,
            &fresh,
        );
    }
    65535
}

// What every letter after the key of row s needs. `count` is the number of firsts.
fn prepare_row(
    letter_values: &[i64],
    dimensions: Dimensions,
    count: usize,
    keys: &[u32],
    s: usize,
    prepared: &mut [i64; PREPARED_SIZE],
)
    requires { IsPreparable (length letter_values.now) dimensions.streams dimensions.width count (row_at keys.now s) (length prepared.old) × (s * key_size + key_size ≤ length keys.now) }
    ensures { Prepared letter_values.now dimensions.streams dimensions.width count (row_at keys.now s) prepared.new }
{
    let start = s * KEY_SIZE;
    let end = start + KEY_SIZE;
    prepare(
        letter_values,
        dimensions,
        count,
        &keys[start..end],
        prepared,
    );
}

// Explores row by row and letter by letter from the first row until every row is done: how many rows there are, or none if rows run out. What the
// letters of a row need is prepared once.
fn search(
    kinds: &[u8; 1024],
    values: &[i64; 1024],
    starts: &[u16; 1024],
    relations: &[u8],
    lefts: &[u16],
    rights: &[u16],
    first_nodes: &[u16],
    letter_values: &[i64],
    dimensions: Dimensions,
    bounds: Bounds,
    keys: &mut [u32],
    heads: &mut [u32],
    links: &mut [u32],
    entries: &mut [u16],
    flags: &mut [u8],
) -> Option<usize>
    requires { CanSearch (store_of kinds.now values.now starts.now relations.now lefts.now rights.now first_nodes.now letter_values.now dimensions.streams dimensions.ahead dimensions.width) bounds.letters bounds.limit bounds.every keys.old heads.old links.old entries.old flags.old }
    ensures { SearchFinds (store_of kinds.now values.now starts.now relations.now lefts.now rights.now first_nodes.now letter_values.now dimensions.streams dimensions.ahead dimensions.width) bounds.letters bounds.limit bounds.every entries.old flags.old keys.new entries.new flags.new result }
{
    let letters = bounds.letters;
    let limit = bounds.limit;
    let mut n = 1;
    let mut s = 0;
    let mut at = 0;
    'rows: while s < n {
        let mut prepared = [0i64; PREPARED_SIZE];
        prepare_row(
            letter_values,
            dimensions,
            first_nodes.len(),
            keys,
            s,
            &mut prepared,
        );
        for a in 0..letters {
            let row = follow(
                kinds,
                values,
                starts,
                relations,
                lefts,
                rights,
                first_nodes,
                letter_values,
                dimensions,
                bounds,
                keys,
                heads,
                links,
                flags,
                n,
                s,
                a as u32,
                &mut prepared,
            );
            if row == n {
                if n == limit {
                    return None;
                }
                n += 1;
            }
            entries[at] = row as u16;
            at += 1;
        }
        s += 1;
    }
    Some(n)
}

// Finds all keys that are reached from that of the empty record, or that there are more than the limit, if the sheet keeps the bounds and the
// tables have room; otherwise the tables stay as they are.
fn explore(
    kinds: &[u8; 1024],
    values: &[i64; 1024],
    starts: &[u16; 1024],
    relations: &[u8],
    lefts: &[u16],
    rights: &[u16],
    first_nodes: &[u16],
    letter_values: &[i64],
    streams: usize,
    ahead: usize,
    width: usize,
    letters: usize,
    limit: usize,
    keys: &mut [u32],
    heads: &mut [u32],
    links: &mut [u32],
    entries: &mut [u16],
    flags: &mut [u8],
) -> Result<usize, Unexplored>
    ensures { Explores (store_of kinds.now values.now starts.now relations.now lefts.now rights.now first_nodes.now letter_values.now streams ahead width) letters limit (explore_tables keys.old heads.old links.old entries.old flags.old) (explore_tables keys.new heads.new links.new entries.new flags.new) result }
{
    if !is_ready(
        relations.len(),
        lefts.len(),
        rights.len(),
        first_nodes.len(),
        streams,
        width,
    ) {
        return Err(Unexplored::NotReady);
    }
    let tables = Lengths {
        keys: keys.len(),
        heads: heads.len(),
        links: links.len(),
        entries: entries.len(),
        flags: flags.len(),
    };
    if !is_lent(letters, limit, streams, letter_values.len(), tables) {
        return Err(Unexplored::NotReady);
    }
    let every = every_mark(relations);
    let empty = [0u32; KEY_SIZE];
    heads.fill(0);
    settle(heads, links, keys, flags, 0, limit, every, &empty);
    let found = search(
        kinds,
        values,
        starts,
        relations,
        lefts,
        rights,
        first_nodes,
        letter_values,
        Dimensions {
            streams,
            ahead,
            width,
        },
        Bounds {
            letters,
            limit,
            every,
        },
        keys,
        heads,
        links,
        entries,
        flags,
    );
    found.ok_or(Unexplored::Full)
}

// Clears the entries and flags, unless they are those of rows that were found.
fn discard(found: Result<usize, Unexplored>, entries: &mut [u16], flags: &mut [u8])
    ensures { Discards (is_err found) entries.old flags.old entries.new flags.new }
{
    if found.is_err() {
        entries.fill(0);
        flags.fill(0);
    }
}

// Explores a stored sheet in the lent tables, if the sheet keeps the bounds and the tables have room. The keys and the chains are 0 afterwards.
// If not all rows are found, every table is 0.
pub fn explore_stored(
    kinds: &[u8; 1024],
    values: &[i64; 1024],
    starts: &[u16; 1024],
    relations: &[u8],
    lefts: &[u16],
    rights: &[u16],
    first_nodes: &[u16],
    letter_values: &[i64],
    streams: usize,
    ahead: usize,
    width: usize,
    letters: usize,
    limit: usize,
    keys: &mut [u32],
    heads: &mut [u32],
    links: &mut [u32],
    entries: &mut [u16],
    flags: &mut [u8],
) -> Result<usize, Unexplored>
    ensures { ExploresStored (store_of kinds.now values.now starts.now relations.now lefts.now rights.now first_nodes.now letter_values.now streams ahead width) letters limit (explore_tables keys.old heads.old links.old entries.old flags.old) (explore_tables keys.new heads.new links.new entries.new flags.new) result }
{
    let found = explore(
        kinds,
        values,
        starts,
        relations,
        lefts,
        rights,
        first_nodes,
        letter_values,
        streams,
        ahead,
        width,
        letters,
        limit,
        keys,
        heads,
        links,
        entries,
        flags,
    );
    keys.fill(0);
    heads.fill(0);
    links.fill(0);
    discard(found, entries, flags);
    found
}
