// Writes the residues of the sides of constraints, one behind the other.
#![tactic(auto)]

ghost use Rattle.std.specs.Prelude.{◌/◌, ◌≤◌, length};
ghost use Rattle.nodes.specs.Evaluate.{stored, view};
ghost use Rattle.write_sides.specs.Sides.{ConstraintWritten, WritesSides};

use sizes::CONSTRAINT_BOUND;
use write_residue::write_residue;

// Places of nodes that belong to the two sides of a constraint.
#[derive(Clone, Copy)]
struct SideNodes {
    left: usize,
    right: usize,
}

// Where the sides are asked for: how many streams a letter of the window has, the place in the window, and whether it is a whole record.
#[derive(Clone, Copy)]
pub struct Asked {
    pub streams: usize,
    pub place: usize,
    pub whole: bool,
}

// Writes both sides of one constraint, whose last nodes are `roots`, from the place `at` on; answers the places behind them.
fn write_constraint(
    kinds: &[u8; 1024],
    values: &[i64; 1024],
    starts: &[u16; 1024],
    window: &[i64],
    firsts: &[i64],
    new_kinds: &mut [u8; 1024],
    new_values: &mut [i64; 1024],
    new_starts: &mut [u16; 1024],
    asked: Asked,
    roots: SideNodes,
    at: usize,
) -> SideNodes
    requires { at ≤ 1024 }
    ensures { ConstraintWritten (stored kinds.now values.now starts.now) (view window.now asked.streams firsts.now asked.whole) (length window.now / asked.streams) asked.place (stored new_kinds.old new_values.old new_starts.old) (stored new_kinds.new new_values.new new_starts.new) at roots result }
{
    // The proof learns how many elements an array has where a slice is made of it. These three are only for that and take no time.
    let kind_list: &[u8] = new_kinds;
    let value_list: &[i64] = new_values;
    let start_list: &[u16] = new_starts;
    let left = write_residue(
        kinds,
        values,
        starts,
        roots.left,
        window,
        asked.streams,
        firsts,
        asked.place,
        asked.whole,
        new_kinds,
        new_values,
        new_starts,
        at,
    );
    let right = write_residue(
        kinds,
        values,
        starts,
        roots.right,
        window,
        asked.streams,
        firsts,
        asked.place,
        asked.whole,
        new_kinds,
        new_values,
        new_starts,
        left.end,
    );
    SideNodes {
        left: left.end,
        right: right.end,
    }
}

// Writes the sides of all constraints, as far as the bound goes, and the places of their last nodes; answers whether there was room for all.
pub fn write_sides(
    kinds: &[u8; 1024],
    values: &[i64; 1024],
    starts: &[u16; 1024],
    lefts: &[u16],
    rights: &[u16],
    window: &[i64],
    firsts: &[i64],
    asked: Asked,
    new_kinds: &mut [u8; 1024],
    new_values: &mut [i64; 1024],
    new_starts: &mut [u16; 1024],
    new_lefts: &mut [u16; 32],
    new_rights: &mut [u16; 32],
) -> bool
    ensures { WritesSides (stored kinds.now values.now starts.now) (view window.now asked.streams firsts.now asked.whole) asked.place lefts.now rights.now (stored new_kinds.new new_values.new new_starts.new) new_lefts.new new_rights.new result }
{
    // The proof learns how many elements an array has where a slice is made of it. These are only for that and take no time.
    let kind_list: &[u8] = new_kinds;
    let value_list: &[i64] = new_values;
    let start_list: &[u16] = new_starts;
    let left_list: &[u16] = new_lefts;
    let right_list: &[u16] = new_rights;
    let count = lefts.len().min(rights.len()).min(CONSTRAINT_BOUND);
    let mut at = 0;
    for j in 0..count {
        let roots = SideNodes {
            left: lefts[j] as usize,
            right: rights[j] as usize,
        };
        let ends = write_constraint(
            kinds, values, starts, window, firsts, new_kinds, new_values, new_starts, asked, roots,
            at,
        );
        if 1024 < ends.right {
            return false;
        }
        new_lefts[j] = (ends.left - 1) as u16;
        new_rights[j] = (ends.right - 1) as u16;
        at = ends.right;
    }
    true
}
