// Classes of the live rows of a stored graph: rows that no record tells apart have one class, named by its first row. Rounds of
// splitting with hashed signatures, each against the classes of the round before. Only the envelope of a row is looked at: outside it no letter leads to a live row.
#![tactic(auto)]

ghost use Rattle.std.specs.Prelude.{◌≡◌, ◌⊎◌, ℕ, ◌+◌, ◌*◌, ◌<◌, ◌≤◌, length, get_or};
ghost use Rattle.basics.specs.Answers.{Says};
ghost use Rattle.row_envelopes.specs.Envelopes.{Enveloped};
ghost use Rattle.refine.specs.Classes.{Refined, Sizes};
ghost use Rattle.refine.specs.Signatures.{class_after, SameSignature, mixed, hash, row_hash, signature_bucket, EnvelopedClasses};
ghost use Rattle.refine.specs.Splitting.{Falling, RowFound, Joins, BeginsClass, Splits, Stays, Sharing, Round};
ghost use Rattle.refine.specs.Steps.{ByFinals, Searchable, Splittable, IsSized, Rounds, Roundable, RefineOutcome};

use row_envelopes::envelope_of;

// The name of a class: the name that it has, or `name` if it has none yet. None is 0 here, as in the table of the classes.
fn first_of(old: u32, name: u32) -> u32
    ensures { (old ≡ 0 → result ≡ name) × ((old ≡ 0 → ⊥) → result ≡ old) }
{
    if old == 0 { name } else { old }
}

// The first classes: one of the final live rows, and one of the other live rows.
fn first_classes(live: &[u32], finals: &[u8], class: &mut [u32])
    requires { (length live.now < 65536) × (length live.now ≤ length finals.now) × (length class.old ≡ length live.now) }
    ensures { ByFinals live.now finals.now class.new }
{
    let mut pending = 0;
    let mut done = 0;
    for (row, mark) in live.iter().enumerate() {
        let name = row as u32 + 1;
        if *mark != 1 {
            class[row] = 0;
        } else if finals[row] == 1 {
            done = first_of(done, name);
            class[row] = done;
        } else {
            pending = first_of(pending, name);
            class[row] = pending;
        }
    }
}

// Marks the first row of each class that has another row.
fn mark_shared(class: &[u32], shared: &mut [u32])
    requires { (length shared.old ≡ length class.now) × ((s : ℕ) → get_or class.now s 0 ≤ length class.now) }
    ensures { Sharing class.now shared.new (length class.now) }
{
    for (row, c) in class.iter().enumerate() {
        let first = *c as usize;
        if first != 0 && first != row + 1 {
            shared[first - 1] = 1;
        }
    }
}

// One step of the hash.
fn mix(h: u64, class: u32) -> u64
    requires { h < 4294967296 }
    ensures { result ≡ mixed h class }
{
    (h * 2654435761 + u64::from(class)) % 4294967296
}

// The hash of `first` and of the classes after `count` entries from `start` on.
fn hash_part(entries: &[u16], start: usize, count: usize, class: &[u32], first: u64) -> u64
    requires { (start + count ≤ length entries.now) × (first < 4294967296) }
    ensures { (result < 4294967296) × (result ≡ hash (class_after entries.now class.now start) first count) }
{
    let mut h = first;
    for entry in &entries[start..start + count] {
        h = mix(h, marks::number_at(class, *entry));
    }
    h
}

// The hash of a row's signature: of its class, its envelope and the classes after the letters of its envelope.
fn hash_row(entries: &[u16], letters: usize, class: &[u32], envelopes: &[u32], row: usize) -> u64
    requires { (row < length class.now) × (length class.now * letters ≤ length entries.now) × (length envelopes.now ≡ length class.now) }
    ensures { (result < 4294967296) × (result ≡ row_hash letters entries.now class.now envelopes.now row) }
{
    let number = envelopes[row];
    let envelope = envelope_of(number, letters);
    let start = row * letters + envelope.begin;
    let count = envelope.end - envelope.begin;
    hash_part(
        entries,
        start,
        count,
        class,
        mix(u64::from(class[row]), number),
    )
}

// The bucket of a hash.
fn bucket(h: u64, count: usize) -> usize
    requires { (h < 4294967296) × (0 < count) }
    ensures { (result < count) × (result ≡ signature_bucket count h) }
{
    ((h / 32768 + h) % count as u64) as usize
}

// Whether the `count` entries from `p` on and those from `q` on lead to the same classes.
fn same_part(entries: &[u16], count: usize, class: &[u32], p: usize, q: usize) -> bool
    requires { (p + count ≤ length entries.now) × (q + count ≤ length entries.now) }
    ensures { Says result ((a : ℕ) → a < count → class_after entries.now class.now p a ≡ class_after entries.now class.now q a) }
{
    for a in 0..count {
        if marks::number_at(class, entries[p + a]) != marks::number_at(class, entries[q + a]) {
            return false;
        }
    }
    true
}

// Whether two rows have one signature. Rows with other envelopes have not.
fn same_row(
    entries: &[u16],
    letters: usize,
    class: &[u32],
    envelopes: &[u32],
    p: usize,
    q: usize,
) -> bool
    requires { (p < length class.now) × (q < length class.now) × (length class.now * letters ≤ length entries.now) × (length envelopes.now ≡ length class.now) × EnvelopedClasses letters entries.now class.now envelopes.now }
    ensures { Says result (SameSignature letters entries.now class.now p q) }
{
    if class[p] != class[q] || envelopes[p] != envelopes[q] {
        return false;
    }
    let envelope = envelope_of(envelopes[q], letters);
    let from = envelope.begin;
    same_part(
        entries,
        envelope.end - from,
        class,
        p * letters + from,
        q * letters + from,
    )
}

// A row of the chain from `head` that has the signature of `row`. `head` and each link are one more than a row, or 0 at the end of the chain.
fn find(
    entries: &[u16],
    letters: usize,
    class: &[u32],
    envelopes: &[u32],
    links: &[u32],
    head: usize,
    row: usize,
) -> Option<usize>
    requires { Searchable letters entries.now class.now envelopes.now links.now head row }
    ensures { RowFound letters entries.now class.now links.now head row result }
{
    let mut j = head;
    while j != 0 {
        let other = j - 1;
        if same_row(entries, letters, class, envelopes, other, row) {
            return Some(other);
        }
        j = links[other] as usize;
    }
    None
}

// The new class of a row whose class has another row.
fn split_row(
    entries: &[u16],
    letters: usize,
    class: &[u32],
    envelopes: &[u32],
    row: usize,
    heads: &mut [u32],
    links: &mut [u32],
) -> u32
    requires { Splittable letters entries.now class.now envelopes.now heads.old links.old row }
    ensures { Joins letters entries.now class.now envelopes.now heads.old links.old heads.new links.new row result ⊎ BeginsClass letters entries.now class.now envelopes.now heads.old links.old heads.new links.new row result }
{
    let h = hash_row(entries, letters, class, envelopes, row);
    let b = bucket(h, heads.len());
    let head = heads[b] as usize;
    if let Some(first) = find(entries, letters, class, envelopes, links, head, row) {
        return first as u32 + 1;
    }
    let name = row as u32 + 1;
    links[row] = heads[b];
    heads[b] = name;
    name
}

// The new class of a row. `mark` is 1 where the row is the first of a class that has another row.
fn next_class(
    entries: &[u16],
    letters: usize,
    class: &[u32],
    envelopes: &[u32],
    mark: u32,
    row: usize,
    heads: &mut [u32],
    links: &mut [u32],
) -> u32
    requires { Splittable letters entries.now class.now envelopes.now heads.old links.old row }
    ensures { Stays class.now mark heads.old links.old heads.new links.new row result ⊎ Splits letters entries.now class.now envelopes.now mark heads.old links.old heads.new links.new row result }
{
    let old = class[row];
    if old == 0 || (old == row as u32 + 1 && mark != 1) {
        return old;
    }
    split_row(entries, letters, class, envelopes, row, heads, links)
}

// One round: each row gets the first row with its signature. Whether some class changed. `next` has the marks of the first rows of classes with another row,
// each of which is read before the row's new class takes its place.
fn split_round(
    entries: &[u16],
    letters: usize,
    class: &[u32],
    envelopes: &[u32],
    next: &mut [u32],
    heads: &mut [u32],
    links: &mut [u32],
) -> bool
    requires { IsSized letters entries.now class.now envelopes.now next.old heads.old links.old }
    ensures { Round letters entries.now class.now next.new result × Falling links.new }
{
    let mut changed = false;
    for row in 0..class.len() {
        let c = next_class(
            entries, letters, class, envelopes, next[row], row, heads, links,
        );
        next[row] = c;
        changed |= c != class[row];
    }
    changed
}

// One round, with the new classes in `next`. Whether some class changed.
fn round(
    entries: &[u16],
    letters: usize,
    class: &[u32],
    envelopes: &[u32],
    next: &mut [u32],
    heads: &mut [u32],
    links: &mut [u32],
) -> bool
    requires { Rounds letters entries.now class.now envelopes.now next.old heads.old links.old }
    ensures { Round letters entries.now class.now next.new result × Falling links.new }
{
    next.fill(0);
    mark_shared(class, next);
    heads.fill(0);
    split_round(entries, letters, class, envelopes, next, heads, links)
}

// Rounds until one changes no class, with the new classes in `next` and in `class` by turns. After a round that changes none both
// hold the same. The two calls also keep the round a function of its own when compiled: inlined here, its loop over the letters
// has too few registers.
fn rounds(
    entries: &[u16],
    letters: usize,
    live: &[u32],
    finals: &[u8],
    envelopes: &[u32],
    class: &mut [u32],
    next: &mut [u32],
    heads: &mut [u32],
    links: &mut [u32],
)
    requires { Roundable letters entries.now live.now finals.now envelopes.now class.old next.old heads.old links.old }
    ensures { Refined letters entries.now live.now finals.now class.new }
{
    first_classes(live, finals, class);
    links.fill(0);
    'rounds: while round(entries, letters, class, envelopes, next, heads, links)
        && round(entries, letters, next, envelopes, class, heads, links)
    {}
}

// Whether the final bytes have room for `rows` rows, and the other lists hold as many.
fn sizes_agree(
    rows: usize,
    finals: usize,
    class: usize,
    next: usize,
    heads: usize,
    links: usize,
    envelopes: usize,
) -> bool
    ensures { Says result ((rows ≤ finals) × (class ≡ rows) × (next ≡ rows) × (heads ≡ rows) × (links ≡ rows) × (envelopes ≡ rows)) }
{
    rows <= finals
        && class == rows
        && next == rows
        && heads == rows
        && links == rows
        && envelopes == rows
}

// Gives each live row its class, 0 to each other row, and clears the work tables `next`, `heads`, `links` and `envelopes`, if the lists
// of rows hold as many, at most 65,535, and there is room for their entries and final bytes. Else nothing changes, and the answer is
// false.
pub fn refine(
    entries: &[u16],
    letters: usize,
    live: &[u32],
    finals: &[u8],
    class: &mut [u32],
    next: &mut [u32],
    heads: &mut [u32],
    links: &mut [u32],
    envelopes: &mut [u32],
) -> bool
    ensures { RefineOutcome letters entries.now live.now finals.now class.old next.old heads.old links.old envelopes.old result class.new next.new heads.new links.new envelopes.new }
{
    if live.len() > 65535
        || !basics::rows_fit(live.len(), letters, entries.len())
        || !sizes_agree(
            live.len(),
            finals.len(),
            class.len(),
            next.len(),
            heads.len(),
            links.len(),
            envelopes.len(),
        )
    {
        return false;
    }
    row_envelopes::find_envelopes(entries, letters, live, envelopes);
    rounds(
        entries, letters, live, finals, envelopes, class, next, heads, links,
    );
    next.fill(0);
    heads.fill(0);
    links.fill(0);
    envelopes.fill(0);
    true
}
