//! Where in a document in JSON the lines of the text come from that it converts to.

ghost use Rattle.std.specs.Prelude.{◌≡◌, ◌+◌, ◌-◌, ◌≤◌, ℕ, [], map, unwrap_or};
ghost use Rattle.desk_tagvalue.specs.Written.{feeds};
ghost use Rattle.desk_spdx_json.specs.Steps.{step_text};
ghost use Rattle.desk_import.specs.Places.{first_place, line_count, place_of};

use desk_spdx_json::{Step, What};

// How many lines a field takes with this value.
fn field_lines(value: &str) -> usize
    ensures { result ≡ feeds value.now + 1 }
{
    let breaks = value
        .as_bytes()
        .iter()
        .filter(|byte| **byte == b'\n')
        .count();
    breaks + 1
}

// How many lines the text takes that a step writes.
fn line_count(step: &Step) -> usize
    ensures { result ≡ line_count (step_text step.now) }
{
    match &step.what {
        What::Blank => 1,
        What::OneLine(_, value) => field_lines(*value),
        What::InText(_, value) => field_lines(*value),
        What::Composed(_, value) => field_lines(value.as_str()),
        What::LeftOut(_) | What::Missing | What::BadType | What::BadValue | What::Differs(_) => 0,
    }
}

// The place of the first of some steps, or the whole document if there is none.
fn first_place<'s>(steps: &'s [Step<'_>]) -> &'s str
    ensures { result.now ≡ unwrap_or (first_place (map step_text steps.now)) [] }
{
    match steps.first() {
        Some(step) => step.at.as_str(),
        None => "",
    }
}

// The steps from the one on that writes the line behind this many lines, and how many of its own
// lines come before that line.
fn seek<'s, 'a>(steps: &'s [Step<'a>], lines: usize) -> (&'s [Step<'a>], usize)
    ensures within { result.1 ≤ lines }
    ensures here { place_of (map step_text steps.now) lines
        ≡ first_place (map step_text result.0.now) }
    ensures later { (n : ℕ) → place_of (map step_text steps.now) (lines - result.1 + n)
        ≡ place_of (map step_text result.0.now) n }
{
    let mut left = lines;
    for (index, step) in steps.iter().enumerate() {
        let count = line_count(step);
        if left < count {
            return (&steps[index..], left);
        }
        left -= count;
    }
    (&steps[steps.len()..], left)
}

/// A walk over steps to the lines that they write. It passes each step once if each line comes
/// behind those before it.
#[derive(Drop)]
pub(crate) struct Walk<'s, 'a> {
    steps: &'s [Step<'a>],
    rest: &'s [Step<'a>],
    passed: usize,
    ghost same: { (n : ℕ) → place_of (map step_text steps.now) (passed + n)
        ≡ place_of (map step_text rest.now) n },
}

impl<'s, 'a> Walk<'s, 'a> {
    /// A walk that has passed no step.
    pub(crate) fn new(steps: &'s [Step<'a>]) -> Walk<'s, 'a>
        ensures steps { result.steps.now ≡ steps.now }
        ensures passed { result.passed ≡ 0 }
    {
        Walk {
            steps,
            rest: steps,
            passed: 0,
        }
    }

    // Goes on to the line behind this many lines.
    fn onward(self, lines: usize) -> Walk<'s, 'a>
        requires { self.passed ≤ lines }
        ensures steps { result.steps.now ≡ self.entry.steps.now }
        ensures here { place_of (map step_text self.entry.steps.now) lines
            ≡ first_place (map step_text result.rest.now) }
    {
        let (rest, left) = seek(self.rest, lines - self.passed);
        Walk {
            steps: self.steps,
            rest,
            passed: lines - left,
        }
    }

    /// Goes to the line behind this many lines.
    pub(crate) fn to(self, lines: usize) -> Walk<'s, 'a>
        ensures steps { result.steps.now ≡ self.entry.steps.now }
        ensures here { place_of (map step_text self.entry.steps.now) lines
            ≡ first_place (map step_text result.rest.now) }
    {
        if lines < self.passed {
            return Walk::new(self.steps).onward(lines);
        }
        self.onward(lines)
    }

    /// The place of the line that it has come to, or the whole document if no step writes it.
    pub(crate) fn place(&self) -> &'s str
        ensures { result.now ≡ unwrap_or (first_place (map step_text self.now.rest.now)) [] }
    {
        first_place(self.rest)
    }
}
