//! The steps of a conversion.

ghost use Rattle.std.specs.Prelude.{◌≡◌, ◌++◌, ◌∷◌, [], IfOk, OnOk, map};
ghost use Rattle.std.specs.String.{string_bytes};
ghost use Rattle.desk_spdx_json.specs.Steps.{step, step_text, what_text, is_line, unwritten, member_at, item_at};

use desk_fields::Tag;
use std::alloc::{AllocError, Global};
use std::marker::Model;

/// What is left out.
#[derive(Clone, Copy)]
pub enum Kind {
    /// A reference to another document.
    ExternalDocument,
    /// An annotation.
    Annotation,
    /// A reference of a package to something outside, such as a package URL.
    ExternalReference,
    /// Any other member of an object.
    Field,
    /// A file without which nothing that ships changes.
    File,
}

/// What is done.
#[derive(Drop)]
pub enum What<'a> {
    /// A blank line is written.
    Blank,
    /// A text is written on one line.
    OneLine(Tag, &'a str),
    /// A text is written in `<text>`.
    InText(Tag, &'a str),
    /// A text that was composed is written on one line.
    Composed(Tag, String),
    /// Something is left out.
    LeftOut(Kind),
    /// A required member is missing.
    Missing,
    /// The value is of the wrong type.
    BadType,
    /// The value can't be written in its field.
    BadValue,
    /// An element has the identifier of another one, at this place, and isn't the same.
    Differs(String),
}

/// What is done at a place.
#[derive(Drop)]
pub struct Step<'a> {
    /// The place, a JSON pointer.
    pub at: String,
    /// What is done there.
    pub what: What<'a>,
}

/// Steps, in order.
#[derive(Drop)]
pub struct Steps<'a> {
    steps: Vec<Step<'a>>,
}

impl<'a> Model for Steps<'a> {
    ghost use Rattle.std.specs.Prelude.{List, map};
    ghost use Rattle.desk_spdx_json.specs.Steps.{StepText, step_text};

    ghost Value = { List StepText };

    ghost view = { λ s. map step_text s.steps.items };
}

impl<'a> Steps<'a> {
    /// No steps.
    pub fn new(alloc: Global) -> Steps<'a>
        ensures { result ≡ [] }
    {
        Steps {
            steps: Vec::new(alloc),
        }
    }

    /// Adds a step.
    pub fn add(&mut self, alloc: Global, at: &str, what: What<'a>) -> Result<(), AllocError>
        ensures { OnOk result (self.new ≡ self.old ++ step at.now (what_text what.entry) ∷ []) }
    {
        let at = String::from_str(alloc, at)?;
        self.steps.push(Step { at, what })?;
        Ok(())
    }

    /// Adds other steps.
    pub fn append(&mut self, other: Steps<'a>) -> Result<(), AllocError>
        ensures { OnOk result (self.new ≡ self.old ++ other.entry) }
    {
        let Steps { mut steps } = other;
        self.steps.append(&mut steps)
    }

    /// Adds those of other steps that aren't lines.
    pub(crate) fn append_unwritten(&mut self, other: Steps<'a>) -> Result<(), AllocError>
        ensures { OnOk result (self.new ≡ self.old ++ unwritten other.entry) }
    {
        let Steps { mut steps } = other;
        drop_lines(&mut steps);
        self.steps.append(&mut steps)
    }

    /// The steps themselves.
    pub fn as_slice(&self) -> &[Step<'a>]
        ensures { map step_text result.now ≡ self.now }
    {
        self.steps.as_slice()
    }
}

// Whether a step writes a line.
fn is_line(step: &Step) -> bool
    ensures { result ≡ is_line (step_text step.now) }
{
    matches!(
        step.what,
        What::Blank | What::OneLine(..) | What::InText(..) | What::Composed(..)
    )
}

// Drops the steps that write lines.
fn drop_lines(steps: &mut Vec<Step<'_>>)
    ensures { map step_text steps.new.items ≡ unwritten (map step_text steps.old.items) }
{
    steps.retain(|step| !is_line(step));
}

/// The place of a member of the object at a place.
pub fn member_at(alloc: Global, at: &str, key: &str) -> Result<String, AllocError>
    ensures { IfOk result (λ s. string_bytes s ≡ member_at at.now key.now) }
{
    format!(in alloc; "{at}/{key}")
}

/// The place of an item of the array at a place.
pub fn item_at(alloc: Global, at: &str, index: usize) -> Result<String, AllocError>
    ensures { IfOk result (λ s. string_bytes s ≡ item_at at.now index) }
{
    format!(in alloc; "{at}/{index}")
}
