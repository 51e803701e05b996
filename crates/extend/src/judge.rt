// Constraints, judged at one time.
ghost use Rattle.std.specs.Prelude.{◌≡◌, ◌<◌, ◌≤◌, length};
ghost use Rattle.nodes.specs.Bounded.{value_in};
ghost use Rattle.nodes.specs.Evaluate.{stored, view, node_value};
ghost use Rattle.extend.specs.Step.{judged_from};
ghost use Rattle.extend.specs.Marking.{IsSmall, begun, grown};

// The marks that are told so far, what the next one counts for, and the marks of the untils that are still to be judged.
#[derive(Clone, Copy)]
struct Marking {
    told: u64,
    weight: u64,
    rest: u32,
}

// The first mark counts for 1.
fn begin(marks: u32) -> Marking
    ensures { result ≡ begun marks }
{
    Marking {
        told: 0,
        weight: 1,
        rest: marks,
    }
}

// One more until is judged.
fn mark_on(m: Marking, done: bool) -> Marking
    requires { IsSmall m }
    ensures { result ≡ grown m done }
{
    let told = if done { m.told + m.weight } else { m.told };
    Marking {
        told,
        weight: m.weight * 2,
        rest: m.rest / 2,
    }
}

// Judges every constraint once, in order, at a place of the window: the marks of the untils that are done then, if a lawful record stays lawful.
pub fn judge(
    kinds: &[u8; 1024],
    values: &[i64; 1024],
    starts: &[u16; 1024],
    relations: &[u8],
    lefts: &[u16],
    rights: &[u16],
    window: &[i64],
    streams: usize,
    firsts: &[i64],
    place: usize,
    whole: bool,
    marks: u32,
) -> Option<u32>
    requires { (length lefts.now ≡ length relations.now) × (length rights.now ≡ length relations.now) × (length relations.now ≤ 32) }
    ensures { result ≡ judged_from relations.now lefts.now rights.now (λ node. value_in (node_value (stored kinds.now values.now starts.now) (view window.now streams firsts.now whole) node place)) 0 (length relations.now) marks }
{
    let mut marking = begin(marks);
    for (j, &relation) in relations.iter().enumerate() {
        let left = lefts[j] as usize;
        let right = rights[j] as usize;
        if relation == nodes::UNTIL_RELATION {
            let done = sides::is_done(
                kinds,
                values,
                starts,
                right,
                window,
                streams,
                firsts,
                place,
                whole,
                marking.rest,
            );
            if !sides::is_permitted(
                kinds, values, starts, left, window, streams, firsts, place, whole, done,
            ) {
                return None;
            }
            marking = mark_on(marking, done);
        } else if !sides::sides_hold(
            kinds, values, starts, relation, left, right, window, streams, firsts, place, whole,
        ) {
            return None;
        }
    }
    Some(marking.told as u32)
}
