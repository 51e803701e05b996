// Finds all pairs of states that two tables reach together: their keys in rows, and the graph of their successors. The key of a pair is the left state times
// 4,096, and the right one.
#![tactic(auto)]

ghost use Rattle.std.specs.Prelude.{◌≡◌, cond, ◌&&◌, ◌+◌, ◌*◌, ◌/◌, ◌%◌, ◌≤◌, ◌<◌, eqb, length};
ghost use Rattle.basics.specs.Answers.{Says};
ghost use Rattle.basics.specs.Lists.{at};
ghost use Rattle.automaton.specs.WellFormed.{most_rows};
ghost use Rattle.pairs.specs.Rows.{key_of_entries, pair_bucket, ChainedKeys, FindsKey, KeySettled, KeyFollowed, tables_over, PairTurn, RowSearched, RowsSearched, HasPairRoom, HasFlags};
ghost use Rattle.pairs.specs.Found.{pair_tables, RowsFilled, PairsOutcome};

use automaton::NO_STATE;

// How many letters either table and the joined one have, and how many rows there may be.
#[derive(Clone, Copy)]
pub struct PairSizes {
    pub left_letters: usize,
    pub right_letters: usize,
    pub letters: usize,
    pub limit: usize,
}

// The lengths of the cuts and of the lent tables.
#[derive(Clone, Copy)]
struct PairRoom {
    left_cuts: usize,
    right_cuts: usize,
    entries: usize,
    flags: usize,
    keys: usize,
    heads: usize,
    links: usize,
}

// The entry at a place; behind the table 0.
fn entry_at(entries: &[u16], place: usize) -> u16
    ensures { result ≡ at entries.now place }
{
    entries.get(place).copied().unwrap_or(0)
}

// The final byte of a state; behind the table 0.
fn final_at(finals: &[u8], state: usize) -> u8
    ensures { result ≡ at finals.now state }
{
    finals.get(state).copied().unwrap_or(0)
}

// The place of a state's entry for the letter that a joined letter has.
fn entry_place(state: usize, letters: usize, cuts: &[u16], letter: usize) -> usize
    requires { (state < 1048576) × (letters ≤ 1024) × (letter < length cuts.now) }
    ensures { result ≡ state * letters + at cuts.now letter }
{
    state * letters + usize::from(cuts[letter])
}

// The key of a pair of entries, or none where one of them names no state.
fn key_of(p: u16, q: u16) -> Option<u32>
    ensures { result ≡ key_of_entries p q }
{
    if p < 4096 && q < 4096 {
        Some(u32::from(p) * 4096 + u32::from(q))
    } else {
        None
    }
}

// The key of the pair that a joined letter leads to, or none where it leads to no pair.
fn successor(
    left: &[u16],
    right: &[u16],
    left_cuts: &[u16],
    right_cuts: &[u16],
    sizes: PairSizes,
    key: u32,
    letter: usize,
) -> Option<u32>
    requires { (sizes.left_letters ≤ 1024) × (sizes.right_letters ≤ 1024) × (letter < length left_cuts.now) × (letter < length right_cuts.now) }
    ensures { result ≡ key_of_entries (at left.now (key / most_rows * sizes.left_letters + at left_cuts.now letter)) (at right.now (key % most_rows * sizes.right_letters + at right_cuts.now letter)) }
{
    let pair = key as usize;
    let left_place = entry_place(pair / 4096, sizes.left_letters, left_cuts, letter);
    let right_place = entry_place(pair % 4096, sizes.right_letters, right_cuts, letter);
    key_of(entry_at(left, left_place), entry_at(right, right_place))
}

// The bucket of a key, of which there are m. The low bits of a product depend on the low bits of its factors alone, so the high ones are added.
fn bucket(key: u32, m: usize) -> usize
    requires { 0 < m }
    ensures value { result ≡ pair_bucket m key }
    ensures upper_bound { result < m }
{
    let h = u64::from(key) * 2654435761 % 4294967296;
    (h / 32768 + h) as usize % m
}

// The row that holds the key. `h` is the key's bucket.
fn find(heads: &[u32], links: &[u32], keys: &[u32], n: usize, h: usize, key: u32) -> Option<usize>
    requires { ChainedKeys heads.now links.now keys.now n × (h ≡ pair_bucket (length heads.now) key) × (h < length heads.now) }
    ensures { FindsKey keys.now n key result }
{
    let mut j = heads[h] as usize;
    while j != 0 {
        let i = j - 1;
        if keys[i] == key {
            return Some(i);
        }
        j = links[i] as usize;
    }
    None
}

// The row that holds the key. A new key becomes row n if there is room.
fn settle(
    heads: &mut [u32],
    links: &mut [u32],
    keys: &mut [u32],
    n: usize,
    limit: usize,
    key: u32,
) -> usize
    requires { ChainedKeys heads.old links.old keys.old n × (limit ≤ most_rows) × (limit ≤ length links.old) × (limit ≤ length keys.old) }
    ensures { KeySettled limit n key keys.old heads.new links.new keys.new result }
{
    let h = bucket(key, heads.len());
    if let Some(row) = find(heads, links, keys, n, h, key) {
        return row;
    }
    if n < limit {
        keys[n] = key;
        links[n] = heads[h];
        heads[h] = (n + 1) as u32;
    }
    n
}

// The row that an entry names: that of the key, which becomes row n if it is new and there is room, or 65,535 for no pair.
fn follow(
    heads: &mut [u32],
    links: &mut [u32],
    keys: &mut [u32],
    n: usize,
    limit: usize,
    key: Option<u32>,
) -> usize
    requires { ChainedKeys heads.old links.old keys.old n × (limit ≤ most_rows) × (limit ≤ length links.old) × (limit ≤ length keys.old) }
    ensures { KeyFollowed limit n key keys.old heads.new links.new keys.new result }
{
    match key {
        Some(key) => settle(heads, links, keys, n, limit, key),
        None => usize::from(NO_STATE),
    }
}

// Follows every letter from row s. Gives how many rows there are then, or none where there is no room for another.
fn search_row(
    left: &[u16],
    right: &[u16],
    left_cuts: &[u16],
    right_cuts: &[u16],
    sizes: PairSizes,
    s: usize,
    n: usize,
    keys: &mut [u32],
    heads: &mut [u32],
    links: &mut [u32],
    entries: &mut [u16],
) -> Option<usize>
    requires has_pair_room { HasPairRoom sizes.left_letters sizes.right_letters sizes.letters sizes.limit (length left_cuts.now) (length right_cuts.now) (length entries.old) sizes.limit (length keys.old) (length heads.old) (length links.old) }
    requires s_lt_n { (s < n) × PairTurn left.now right.now left_cuts.now right_cuts.now sizes.left_letters sizes.right_letters sizes.letters sizes.limit keys.old entries.old heads.old links.old n s 0 }
    ensures { RowSearched left.now right.now left_cuts.now right_cuts.now sizes.left_letters sizes.right_letters sizes.letters sizes.limit s keys.new entries.new heads.new links.new result }
{
    let key = keys[s];
    let at = s * sizes.letters;
    let mut known = n;
    for a in 0..sizes.letters {
        let next = successor(left, right, left_cuts, right_cuts, sizes, key, a);
        let row = follow(heads, links, keys, known, sizes.limit, next);
        if row == known {
            if known == sizes.limit {
                return None;
            }
            known += 1;
        }
        entries[at + a] = row as u16;
    }
    Some(known)
}

// Explores row by row from the pair of both starts until every row is done. Gives how many rows there are, or none where rows run out.
fn search(
    left: &[u16],
    right: &[u16],
    left_cuts: &[u16],
    right_cuts: &[u16],
    sizes: PairSizes,
    keys: &mut [u32],
    heads: &mut [u32],
    links: &mut [u32],
    entries: &mut [u16],
) -> Option<usize>
    requires { HasPairRoom sizes.left_letters sizes.right_letters sizes.letters sizes.limit (length left_cuts.now) (length right_cuts.now) (length entries.old) sizes.limit (length keys.old) (length heads.old) (length links.old) }
    ensures { RowsSearched left.now right.now left_cuts.now right_cuts.now sizes.left_letters sizes.right_letters sizes.letters sizes.limit keys.new entries.new result }
{
    heads.fill(0);
    let start = settle(heads, links, keys, 0, sizes.limit, 0);
    let mut n = start + 1;
    let mut s = 0;
    while s < n {
        n = search_row(
            left, right, left_cuts, right_cuts, sizes, s, n, keys, heads, links, entries,
        )?;
        s += 1;
    }
    Some(n)
}

// The flag of each row: 1 where both states of its pair are final.
fn write_flags(
    left_finals: &[u8],
    right_finals: &[u8],
    keys: &[u32],
    count: usize,
    flags: &mut [u8],
)
    requires { (count ≤ length keys.now) × (count ≤ length flags.old) }
    ensures { HasFlags left_finals.now right_finals.now keys.now count flags.new }
{
    for row in 0..count {
        let key = keys[row] as usize;
        let p = final_at(left_finals, key / 4096);
        let q = final_at(right_finals, key % 4096);
        flags[row] = both_final(p, q);
    }
}

fn both_final(p: u8, q: u8) -> u8
    ensures { result ≡ cond (eqb p 1 && eqb q 1) 1 0 }
{
    u8::from(p == 1 && q == 1)
}

// Whether the letters keep the bound, each joined letter has its cuts, and the tables have room for as many rows as the limit.
fn is_ready(sizes: PairSizes, room: PairRoom) -> bool
    ensures { Says result (HasPairRoom sizes.left_letters sizes.right_letters sizes.letters sizes.limit room.left_cuts room.right_cuts room.entries room.flags room.keys room.heads room.links) }
{
    let limit = sizes.limit;
    sizes.left_letters <= 1024
        && sizes.right_letters <= 1024
        && sizes.letters <= room.left_cuts
        && sizes.letters <= room.right_cuts
        && 0 < limit
        && limit <= 4096
        && limit <= room.flags
        && limit <= room.keys
        && limit <= room.heads
        && limit <= room.links
        && basics::rows_fit(limit, sizes.letters, room.entries)
}

// The rows found, with their entries and flags, or 0 where there are more than the limit, or the sizes are not right.
fn fill_rows(
    left_entries: &[u16],
    left_finals: &[u8],
    right_entries: &[u16],
    right_finals: &[u8],
    left_cuts: &[u16],
    right_cuts: &[u16],
    sizes: PairSizes,
    entries: &mut [u16],
    flags: &mut [u8],
    keys: &mut [u32],
    heads: &mut [u32],
    links: &mut [u32],
) -> usize
    ensures { RowsFilled (length left_cuts.now) (length right_cuts.now) (tables_over left_entries.now left_finals.now right_entries.now right_finals.now left_cuts.now right_cuts.now sizes.left_letters sizes.right_letters sizes.letters) sizes.left_letters sizes.right_letters sizes.limit (pair_tables entries.old flags.old keys.old heads.old links.old) entries.new flags.new result }
{
    let room = PairRoom {
        left_cuts: left_cuts.len(),
        right_cuts: right_cuts.len(),
        entries: entries.len(),
        flags: flags.len(),
        keys: keys.len(),
        heads: heads.len(),
        links: links.len(),
    };
    if !is_ready(sizes, room) {
        return 0;
    }
    let found = search(
        left_entries,
        right_entries,
        left_cuts,
        right_cuts,
        sizes,
        keys,
        heads,
        links,
        entries,
    );
    let Some(count) = found else {
        return 0;
    };
    write_flags(left_finals, right_finals, keys, count, flags);
    count
}

// Finds the pairs that two tables reach together from both starts: their number, with the entries and flags of their rows; or 0 where they are more than the
// limit, or the sizes are not right. Every other number of the tables is 0 afterwards.
pub fn find_pairs(
    left_entries: &[u16],
    left_finals: &[u8],
    right_entries: &[u16],
    right_finals: &[u8],
    left_cuts: &[u16],
    right_cuts: &[u16],
    sizes: PairSizes,
    entries: &mut [u16],
    flags: &mut [u8],
    keys: &mut [u32],
    heads: &mut [u32],
    links: &mut [u32],
) -> usize
    ensures { PairsOutcome (length left_cuts.now) (length right_cuts.now) (tables_over left_entries.now left_finals.now right_entries.now right_finals.now left_cuts.now right_cuts.now sizes.left_letters sizes.right_letters sizes.letters) sizes.left_letters sizes.right_letters sizes.limit (pair_tables entries.old flags.old keys.old heads.old links.old) (pair_tables entries.new flags.new keys.new heads.new links.new) result }
{
    let count = fill_rows(
        left_entries,
        left_finals,
        right_entries,
        right_finals,
        left_cuts,
        right_cuts,
        sizes,
        entries,
        flags,
        keys,
        heads,
        links,
    );
    basics::clear_from(entries, count * sizes.letters, 0);
    basics::clear_from(flags, count, 0);
    keys.fill(0);
    heads.fill(0);
    links.fill(0);
    count
}
