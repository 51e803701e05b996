// What `shortest` prints, by its places. Place 0 has the names of the streams, or the line of a refusal, and the places after it have the values of the course's
// letters.
#![tactic(auto)]

ghost use Rattle.print.specs.Append.{Appends};
ghost use Rattle.course_text.specs.Output.{values_text, printout_of_course, course_at, course_places};

use pages::PlacedText;

// What `shortest` prints: a refusal's number, or 0 and the letters of a course. A name is stored as eight bytes and a length.
#[derive(Clone, Copy)]
pub struct PrintedCourse<'a> {
    pub refusal: u32,
    pub names: &'a [u8],
    pub lengths: &'a [u8],
    pub lows: &'a [i64],
    pub highs: &'a [i64],
    pub course: &'a [u32],
}

// A line of the values of the letter with this number; nothing where no letter has it.
fn values_line(lows: &[i64], highs: &[i64], letter: u32, line: &mut [u8]) -> usize
    ensures { Appends 0 (values_text lows.now highs.now letter) line.old line.new result }
{
    let mut values = [0i64; 8];
    if !letters::letter_values(lows, highs, letter, &mut values) {
        return 0;
    }
    let streams = lows.len().min(highs.len());
    print::numbers_line(&values[..streams], line)
}

impl<'a> PlacedText for PrintedCourse<'a> {
    ghost line = { λ c. course_at (printout_of_course c) };

    ghost count = { λ c. course_places c.refusal c.course.now };

    fn place_count(&self) -> usize {
        if self.refusal != 0 {
            return 1;
        }
        self.course.len() + 1
    }

    // The names of the streams, then a line of values for each letter of the course; or the one line of a refusal.
    fn line_at(&self, place: usize, line: &mut [u8]) -> usize {
        if self.refusal != 0 {
            if place != 0 {
                return 0;
            }
            return print::refusal_line(self.refusal, line);
        }
        if place == 0 {
            return print::names_line(self.names, self.lengths, self.lows.len(), line);
        }
        let Some(&letter) = self.course.get(place - 1) else {
            return 0;
        };
        values_line(self.lows, self.highs, letter, line)
    }
}
