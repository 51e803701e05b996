// The lowest refusal 3 to 7, from what is told of a sheet's parts.
#![tactic(auto)]

ghost use Rattle.std.specs.Prelude.{◌≡◌, ◌||◌, ◌+◌, ltb};
ghost use Rattle.std.specs.Int.Signed.{lt_z};
ghost use Rattle.lowest_refusal.specs.Tested.{form_refusal, failed_as, tested_with};

// A refusal 4 to 7 with zeros, or 0 with the number of letters, D and B.
#[derive(Clone, Copy)]
pub struct Tested {
    pub refusal: u32,
    pub letters: u32,
    pub ahead: u32,
    pub back: u32,
}

// "an integer beyond the magnitude bound, or a low above its high", of one stream
pub fn range_faulty(low_beyond: bool, high_beyond: bool, low: i64, high: i64) -> bool
    ensures { result ≡ low_beyond || high_beyond || lt_z high low }
{
    low_beyond || high_beyond || high < low
}

// 3 where the line of kinds or the constraint lines are not of the form, else 4 where a name of line 1 is refused, else 0: "The lowest that applies
// to the whole sheet is given".
pub fn form_refusal(formless: bool, named: bool) -> u32
    ensures { result ≡ form_refusal formless named }
{
    if formless {
        return 3;
    }
    if named {
        return 4;
    }
    0
}

// "7: letters, untils, firsts or D+B over the bound."
fn counts_refused(letters: u32, untils: usize, firsts: usize, ahead: u32, back: u32) -> bool
    ensures { result ≡ ltb 1024 letters || ltb 8 untils || ltb 8 firsts || ltb 6 (ahead + back) }
{
    1024 < letters || 8 < untils || 8 < firsts || 6 < ahead || 6 < back || 6 < ahead + back
}

fn failed(number: u32) -> Tested
    ensures { result ≡ failed_as number }
{
    Tested {
        refusal: number,
        letters: 0,
        ahead: 0,
        back: 0,
    }
}

// The lowest of refusals 4 to 7, but for what the names of line 1 say alone: whether a constraint has an unknown name, whether a range or an integer
// is faulty, and whether every interval is within the bound.
pub fn lowest_refusal(
    unknown: bool,
    faulty: bool,
    bounded: bool,
    letters: u32,
    untils: usize,
    firsts: usize,
    ahead: u32,
    back: u32,
) -> Tested
    ensures { result ≡ tested_with unknown faulty bounded letters untils firsts ahead back }
{
    if unknown {
        return failed(4);
    }
    if faulty {
        return failed(5);
    }
    if !bounded {
        return failed(6);
    }
    if counts_refused(letters, untils, firsts, ahead, back) {
        return failed(7);
    }
    Tested {
        refusal: 0,
        letters,
        ahead,
        back,
    }
}
