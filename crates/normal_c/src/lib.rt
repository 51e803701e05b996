// The entry by which C programs call `normal_form`. A slice is a pointer and a length there.
#![tactic(auto)]

ghost use Rattle.std.specs.Prelude.{length};
ghost use Rattle.outcome.specs.NormalForm.{NormalOutcome};
ghost use Rattle.normal.specs.Encoded.{normal_entries, normal_answer_of};
ghost use Rattle.normal_entries.specs.Entries.{blank};

use normal_entries::{Entry, NormalForm};

#[unsafe(no_mangle)]
pub extern "C" fn normal_form_c(text: &[u8], list: &mut [Entry]) -> NormalForm
    ensures { NormalOutcome blank (normal_entries text.now) text.now (length list.old) (normal_answer_of result) list.new }
{
    normal::normal_form(text, list)
}
