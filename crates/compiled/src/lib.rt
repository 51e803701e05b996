// The answer of a compile: a refusal's number, or the numbers of states and situations.
#![tactic(auto)]

ghost use Rattle.std.specs.Prelude.{◌≡◌, min};
ghost use Rattle.outcome.specs.Compile.{situation_bound};
ghost use Rattle.compiled.specs.Answer.{refused_with, answered, made_of};

// The refusal's number or 0, "the number of states and the number of distinct situations". Laid out as in C, so that an exported function can give
// it back.
#[repr(C)]
#[derive(Clone, Copy)]
pub struct Compiled {
    pub refusal: u32,
    pub states: u32,
    pub situations: u32,
}

pub fn refused(refusal: u32) -> Compiled
    ensures { result ≡ refused_with refusal }
{
    Compiled {
        refusal,
        states: 0,
        situations: 0,
    }
}

// The answer to a text: the refusal that it was read with, or what was made of its sheet.
pub fn answered(refusal: u32, made: Compiled) -> Compiled
    ensures { result ≡ answered refusal made }
{
    if refusal == 0 { made } else { refused(refusal) }
}

// How many situations are looked for with these rows: one more is too many.
pub fn most_situations(rows: usize) -> usize
    ensures { result ≡ min rows situation_bound }
{
    rows.min(4096)
}

// The answer from the rows lent, the situations found and what the table's making gave.
pub fn made(rows: usize, situations: usize, table: minimise::Minimised) -> Compiled
    ensures { result ≡ made_of rows (min situations situation_bound) table }
{
    match table.refusal {
        0 => Compiled {
            refusal: 0,
            states: table.states,
            situations: situations.min(4096) as u32,
        },
        9 => refused(9),
        _ if rows < 4096 => refused(10),
        _ => refused(8),
    }
}
