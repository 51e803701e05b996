// Prints what `shortest` prints for a sheet and a state: the best course to a final state, or the line of a refusal. The crate `course_text` gives the
// bytes, and the crate `pages` writes them; what is left here are the calls.
#![tactic(auto)]

ghost use Rattle.std.specs.Prelude.{◌≡◌, ◌*◌, ◌≤◌, min, length, take};
ghost use Rattle.stored_ranges.specs.Ranges.{HasRanges};
ghost use Rattle.opening.specs.Start.{start_text};
ghost use Rattle.course_text.specs.Output.{course_output};
ghost use Rattle.output.specs.Output.{Hands};
ghost use Rattle.show_course.specs.Shows.{ShowsCourse, FindsCourse, course_printout};

use course::CourseAnswer;
use course_text::PrintedCourse;
use opening::OpenedTable;
use output::Handed;
use std::io::Write;

// The course from the state with which a table was opened, along the used rows. It has fewer letters than there are rows, so the list has room for it.
fn find_course(
    table: OpenedTable,
    entries: &[u16],
    finals: &[u8],
    list: &mut [u32],
    work: &mut [u16],
) -> CourseAnswer
    requires { (table.states ≤ length finals.now) × (table.states * table.sheet.letters ≤ length entries.now) × (length list.old ≡ 256) × (length work.old ≡ 32768) }
    ensures { FindsCourse table entries.now finals.now list.new result }
{
    if table.refusal != 0 {
        return CourseAnswer {
            refusal: table.refusal,
            count: 0,
        };
    }
    let sheet = table.sheet;
    let states = table.states as usize;
    let used = states * sheet.letters as usize;
    course::course(
        &entries[..used],
        &finals[..states],
        sheet.letters,
        compiled_sheet::stored_streams(sheet),
        table.state,
        list,
        work,
    )
}

// Writes the refusal, or the course that stands at the front of the list, with the sheet's names and ranges.
fn print_course<W: Write>(
    out: &mut W,
    sheet: reader::StoredSheet,
    answer: CourseAnswer,
    list: &[u32],
) -> Handed
    requires { HasRanges sheet × (length list.now ≡ 256) }
    ensures { Hands (course_output (course_printout sheet answer.refusal (take (min answer.count 256) list.now))) result.size result.whole }
{
    let streams = sheet.streams.min(8);
    let count = (answer.count as usize).min(256);
    let course = PrintedCourse {
        refusal: answer.refusal,
        names: &sheet.names,
        lengths: &sheet.lengths,
        lows: &sheet.lows[..streams],
        highs: &sheet.highs[..streams],
        course: &list[..count],
    };
    let mut page = [0u8; 4096];
    pages::write_pages(out, &course, &mut page)
}

// Prints the best course from a state of the sheet's table to a final state, or the refusal of the sheet or the state. Without a state given it is 0.
pub fn show_course<W: Write>(out: &mut W, text: &[u8], given: bool, start: &[u8]) -> Handed
    ensures { ShowsCourse text.now (start_text given start.now) result }
{
    let mut entries = [0u16; 32768];
    let mut finals = [0u8; 256];
    let table = opening::open_table(text, given, start, &mut entries, &mut finals);
    let mut list = [0u32; 256];
    let mut work = [0u16; 32768];
    let answer = find_course(table, &entries, &finals, &mut list, &mut work);
    print_course(out, table.sheet, answer, &list)
}
