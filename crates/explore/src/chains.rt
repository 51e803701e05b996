// Keys in rows, found again by chains of rows in the same bucket.
ghost use Rattle.std.specs.Prelude.{◌≡◌, ◌+◌, ◌*◌, ◌<◌, ◌≤◌, length};
ghost use Rattle.basics.specs.Answers.{Says};
ghost use Rattle.sizes.specs.Room.{key_size};
ghost use Rattle.explore.specs.Chains.{mix_of, hash_from, bucket_of, KeyTables, Finds, Inserts};

use sizes::KEY_SIZE;

// Whether two keys are equal. Every place is compared, also after a difference: a loop without an early exit is compiled to vector instructions.
fn same(a: &[u32], b: &[u32]) -> bool
    requires { length a.now ≡ length b.now }
    ensures { Says result (a.now ≡ b.now) }
{
    let mut different = 0u32;
    for (i, &x) in a.iter().enumerate() {
        if x != b[i] {
            different = 1;
        }
    }
    different == 0
}

fn mix(h: u64, x: u32) -> u64
    ensures { result ≡ mix_of h x }
{
    h % 4294967296 * 2654435761 + u64::from(x)
}

fn hash(key: &[u32]) -> u64
    ensures { result ≡ hash_from 0 key.now }
{
    let mut h = 0;
    for &x in key {
        h = mix(h, x);
    }
    h
}

// The bucket of a key, of which there are m.
pub fn bucket(key: &[u32], m: usize) -> usize
    requires { 0 < m }
    ensures value { result ≡ bucket_of m key.now }
    ensures upper_bound { result < m }
{
    hash(key) as usize % m
}

// The row that holds the key. `h` is the key's bucket.
pub fn find(
    heads: &[u32],
    links: &[u32],
    keys: &[u32],
    n: usize,
    h: usize,
    key: &[u32],
) -> Option<usize>
    requires key_tables { KeyTables heads.now links.now keys.now n }
    requires key_len { (length key.now ≡ key_size) × (h ≡ bucket_of (length heads.now) key.now) × (h < length heads.now) }
    ensures { Finds keys.now n key.now result }
{
    let mut j = heads[h] as usize;
    while j != 0 {
        let i = j - 1;
        let at = i * KEY_SIZE;
        let end = at + KEY_SIZE;
        if same(&keys[at..end], key) {
            return Some(i);
        }
        j = links[i] as usize;
    }
    None
}

// Stores the key as row n. `h` is the key's bucket.
pub fn insert(
    heads: &mut [u32],
    links: &mut [u32],
    keys: &mut [u32],
    n: usize,
    h: usize,
    key: &[u32],
)
    requires key_tables { KeyTables heads.old links.old keys.old n }
    requires h_value { (h ≡ bucket_of (length heads.old) key.now) × (h < length heads.old) }
    requires key_len { (length key.now ≡ key_size) × (n < 65535) × (n < length links.old) × (n * key_size + key_size ≤ length keys.old) }
    ensures key_tables_2 { KeyTables heads.new links.new keys.new (n + 1) }
    ensures inserts { Inserts keys.old keys.new n key.now }
{
    basics::put(keys, n * KEY_SIZE, key);
    links[n] = heads[h];
    heads[h] = (n + 1) as u32;
}
