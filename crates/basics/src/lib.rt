// What several crates share: small functions on lists and sizes here, counts and lists in specs/, laws of tests, lists and counts in proofs/.
#![tactic(auto)]

ghost use Rattle.std.specs.Prelude.{◌*◌, ◌≤◌};
ghost use Rattle.basics.specs.Answers.{Says};
ghost use Rattle.basics.specs.Clearing.{FilledFrom};
ghost use Rattle.basics.specs.Copying.{Put};

// Whether `rows` rows of `letters` entries fit into `room` entries. Tested by a division, since the product can be too large.
pub fn rows_fit(rows: usize, letters: usize, room: usize) -> bool
    ensures { Says result (rows * letters ≤ room) }
{
    letters == 0 || rows <= room / letters
}

// Copies numbers into the list from a place on. If they do not fit there, nothing changes.
pub fn put(list: &mut [u32], at: usize, numbers: &[u32])
    ensures { Put list.old at numbers.now list.new }
{
    if at <= list.len() && numbers.len() <= list.len() - at {
        list[at..at + numbers.len()].copy_from_slice(numbers);
    }
}

// Sets each value of the list from `from` on to `zero`.
pub fn clear_from<T: Copy>(list: &mut [T], from: usize, zero: T)
    ensures { FilledFrom zero list.old list.new from }
{
    for i in from..list.len() {
        list[i] = zero;
    }
}
