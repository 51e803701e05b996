// The entry by which C programs call `course`. A slice is a pointer and a length there, and the streams are passed by value.
#![tactic(auto)]

ghost use Rattle.std.specs.Prelude.{length};
ghost use Rattle.course.specs.Outcome.{CourseCall};

use course::CourseAnswer;
use streams::StreamsDescription;

#[unsafe(no_mangle)]
pub extern "C" fn course_c(
    entries: &[u16],
    finals: &[u8],
    letters: u32,
    streams: StreamsDescription,
    state: u32,
    list: &mut [u32],
    work: &mut [u16],
) -> CourseAnswer
    ensures { CourseCall letters entries.now finals.now streams state (length list.old) (length work.old) result.refusal result.count list.new work.new }
{
    course::course(entries, finals, letters, streams, state, list, work)
}
