// Writing the key of a record with one more letter.
ghost use Rattle.std.specs.Prelude.{◌≡◌, [], ◌∷◌, ◌++◌, map, ◌+◌, ◌<◌, ◌≤◌, length, take};
ghost use Rattle.sheet.specs.Refusal.{window_bound, first_bound};
ghost use Rattle.nodes.specs.Bounded.{value_in};
ghost use Rattle.nodes.specs.Evaluate.{stored, view, node_value};
ghost use Rattle.sizes.specs.Room.{key_size};
ghost use Rattle.prepare.specs.Key.{encoded_key, raised};

use evaluate::evaluate;
use prepare::raised;
use sizes::{FIRSTS_PLACE, MARKS_PLACE};

// Writes a key: zeros everywhere, and over them its parts. Of the letters and the newest one it has the first `count`: all of them, or none.
pub fn write_key(
    key: &mut [u32],
    size: u32,
    letters: &[u32],
    letter: u32,
    count: usize,
    firsts: &[u32],
    marks: u32,
)
    requires { (length key.old ≡ key_size) × (count ≤ window_bound) × (length firsts.now ≤ first_bound) × (0 < count → count ≡ length letters.now + 1) × (count ≡ 0 → length letters.now ≡ 0) }
    ensures { key.new ≡ encoded_key size (take count (letters.now ++ (letter ∷ []))) firsts.now marks }
{
    key.fill(0);
    basics::put(key, 1, letters);
    if count != 0 {
        key[count] = letter;
    }
    basics::put(key, FIRSTS_PLACE, firsts);
    key[0] = size;
    key[MARKS_PLACE] = marks;
}

// The values of the firsts at the cut, as the key holds them: every `first` node has its value in a whole record.
pub fn raise_all(
    kinds: &[u8; 1024],
    values: &[i64; 1024],
    starts: &[u16; 1024],
    first_nodes: &[u16],
    window: &[i64],
    streams: usize,
    firsts: &[i64],
    whole: bool,
    numbers: &mut [u32],
)
    requires { length first_nodes.now ≤ length numbers.old }
    ensures { take (length first_nodes.now) numbers.new ≡ map (λ node. raised (value_in (node_value (stored kinds.now values.now starts.now) (view window.now streams firsts.now whole) node 0))) first_nodes.now }
{
    for (i, &node) in first_nodes.iter().enumerate() {
        numbers[i] = raised(evaluate(
            kinds,
            values,
            starts,
            node as usize,
            window,
            streams,
            firsts,
            0,
            whole,
        ));
    }
}
