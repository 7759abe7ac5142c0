//! The rows of problems, added to a text: each row is dropped once it is written.

ghost use Rattle.std.specs.Prelude.{◌≡◌, ◌++◌, ◌∷◌, [], List, false, true, codes, IfOk, IfSome, OnOk, map, option_map};
ghost use Rattle.std.specs.List.{flat_map};
ghost use Rattle.std.specs.Str.{is_utf8};
ghost use Rattle.serde_json.specs.Written.{comma_if};
ghost use Rattle.desk_tree_lint.specs.Shown.{name_at};
ghost use Rattle.desk_tree_problems.specs.declared.row.Row.{Row};
ghost use Rattle.desk_tree_reports.specs.Items.{row_json};
ghost use Rattle.desk_tree_reports.specs.Lines.{row_line, line_if};
ghost use Rattle.desk_tree_problems.specs.Rows.{AreFlawRows, blank_row, missing_row, unused_row, bare_row, AreRows};
ghost use Rattle.desk_tree_reports.specs.Pieces.{share_text};
ghost use Rattle.desk_tree_reports.specs.Telling.{row_text, rows_text, AddsRows};
ghost use Rattle.desk_tree_reports.specs.Ways.{rendered};

use crate::items::{escape, row_front};
use crate::lines::{behind_path, has_line, line_end, missing_front};
use crate::long_text::LongText;
use crate::ways::{Shown, Way, share_of};
use desk_base::Text;
use desk_tree_gather::{Blank, Flaw};
use desk_tree_lint::{NameAt, Names};
use desk_tree_problems::{
    Bare, Kind, Problems, Row, bare_row, blank_row, dep5_rows, flaw_row, missing_row, text_words,
    unused_row,
};
use std::alloc::{AllocError, Global};

/// How rows are written.
#[derive(Clone, Copy)]
pub(crate) enum Form {
    /// As lines: all, or those of one kind.
    Lines(Option<Kind>),
    /// As the items of a JSON array.
    Json,
}

/// A text to which rows are added.
#[derive(Drop)]
pub(crate) struct Telling {
    /// The text so far.
    pub(crate) text: LongText,
    /// Whether some row was added.
    pub(crate) later: bool,
    // What was written for the last path, for the last path of a file that names a licence, and at
    // the front and the end of the item of a missing text.
    path: Option<Shown>,
    named: Option<Shown>,
    front: Option<Shown>,
    end: Option<Shown>,
}

impl Telling {
    /// A text to which no row was added yet.
    pub(crate) fn behind(text: LongText) -> Telling
        ensures text { result.text ≡ text }
        ensures later { result.later ≡ false }
    {
        Telling {
            text,
            later: false,
            path: None,
            named: None,
            front: None,
            end: None,
        }
    }

    // Adds the line of a row.
    fn add_line(&mut self, alloc: Global, row: &Row) -> Result<(), AllocError>
        ensures { OnOk result (self.new.text ≡ self.old.text ++ row_line row.now) }
    {
        let path = share_of(alloc, &mut self.path, Way::Line, row.path.as_str())?;
        let rest = behind_path(alloc, row)?;
        self.text.add_shared(alloc, path)?;
        self.text.add(alloc, rest.as_slice())
    }

    // Adds the item of a row.
    fn add_item(&mut self, alloc: Global, row: &Row) -> Result<(), AllocError>
        ensures { OnOk result (self.new.text
            ≡ self.old.text ++ (comma_if self.old.later ++ row_json row.now)) }
    {
        let path = share_of(alloc, &mut self.path, Way::Member, row.path.as_str())?;
        let front = row_front(alloc, row, self.later)?;
        self.text.add(alloc, front.as_slice())?;
        self.text.add_shared(alloc, path)
    }

    // Adds what is written of a row.
    fn add_text(&mut self, alloc: Global, form: Form, row: &Row) -> Result<(), AllocError>
        ensures { OnOk result (self.new.text
            ≡ self.old.text ++ row_text form self.old.later row.now) }
    {
        match form {
            Form::Lines(only) => {
                if has_line(only, row.kind) {
                    self.add_line(alloc, row)
                } else {
                    Ok(())
                }
            }
            Form::Json => self.add_item(alloc, row),
        }
    }

    // Adds a row.
    fn add_row(&mut self, alloc: Global, form: Form, row: &Row) -> Result<(), AllocError>
        ensures { OnOk result (AddsRows form (row.now ∷ []) self.old self.new) }
    {
        self.add_text(alloc, form, row)?;
        self.later = true;
        Ok(())
    }

    // Adds what is written of the file that names a licence.
    fn add_naming(&mut self, alloc: Global, way: Way, path: &str) -> Result<(), AllocError>
        ensures grown { OnOk result (self.new.text ≡ self.old.text ++ rendered way path.now) }
        ensures text { is_utf8 path.now ≡ true }
    {
        let share = share_of(alloc, &mut self.named, way, path)?;
        self.text.add_shared(alloc, share)
    }

    // The same, if one does.
    fn add_named(&mut self, alloc: Global, way: Way, path: Option<&str>) -> Result<(), AllocError>
        ensures grown { OnOk result (self.new.text ≡ self.old.text
            ++ share_text (option_map (λ p. rendered way p.now) path.entry)) }
        ensures text { IfSome path.entry (λ p. is_utf8 p.now ≡ true) }
    {
        match path {
            Some(path) => self.add_naming(alloc, way, path),
            None => Ok(()),
        }
    }

    // Adds the line of a text that is missing.
    fn add_missing_line(&mut self, alloc: Global, name: NameAt<'_>) -> Result<(), AllocError>
        ensures { OnOk result (self.new.text
            ≡ self.old.text ++ row_line (missing_row (name_at name.entry))) }
    {
        let front = missing_front(alloc, name.id)?;
        let words = text_words(alloc, name.id)?;
        let end = line_end(alloc, words.as_str())?;
        self.text.add(alloc, front.as_slice())?;
        self.add_named(alloc, Way::NamedLine, name.path)?;
        self.text.add(alloc, end.as_slice())
    }

    // Adds the item of a missing text, after others.
    fn add_missing_item(&mut self, alloc: Global, name: NameAt<'_>) -> Result<(), AllocError>
        ensures { OnOk result (self.new.text
            ≡ self.old.text ++ (codes "," ++ row_json (missing_row (name_at name.entry)))) }
    {
        let front = share_of(alloc, &mut self.front, Way::Front, "")?;
        let end = share_of(alloc, &mut self.end, Way::End, "")?;
        let id = escape(alloc, name.id)?;
        let words = text_words(alloc, name.id)?;
        let words = escape(alloc, words.as_str())?;
        self.text.add_shared(alloc, front)?;
        self.text.add(alloc, id.as_slice())?;
        self.add_named(alloc, Way::NamedItem, name.path)?;
        self.text.add(alloc, words.as_slice())?;
        self.text.add_shared(alloc, end)
    }

    // Adds what is written for a missing text: what the rows of many have in common is kept once.
    fn add_missing(&mut self, alloc: Global, form: Form, name: NameAt<'_>) -> Result<(), AllocError>
        ensures { OnOk result (self.new.text
            ≡ self.old.text ++ row_text form self.old.later (missing_row (name_at name.entry))) }
    {
        match form {
            Form::Lines(None) => self.add_missing_line(alloc, name),
            Form::Json if self.later => self.add_missing_item(alloc, name),
            _ => self.add_text(alloc, form, &missing_row(alloc, name)?),
        }
    }

    // Adds the row of a text that is missing.
    fn add_name(&mut self, alloc: Global, form: Form, name: NameAt<'_>) -> Result<(), AllocError>
        ensures { OnOk result (AddsRows form (missing_row (name_at name.entry) ∷ []) self.old self.new) }
    {
        self.add_missing(alloc, form, name)?;
        self.later = true;
        Ok(())
    }
}

fn add_rows(
    alloc: Global,
    telling: &mut Telling,
    form: Form,
    rows: &[Row],
) -> Result<(), AllocError>
    ensures { OnOk result (AddsRows form rows.now telling.old telling.new) }
{
    for row in rows {
        telling.add_row(alloc, form, row)?;
    }
    Ok(())
}

fn add_flaws(
    alloc: Global,
    telling: &mut Telling,
    form: Form,
    flaws: &[Flaw],
) -> Result<(), AllocError>
    ensures { OnOk result ((told : List Row) × AreFlawRows flaws.now told
        × AddsRows form told telling.old telling.new) }
{
    for flaw in flaws {
        telling.add_row(alloc, form, &flaw_row(alloc, flaw)?)?;
    }
    Ok(())
}

fn add_blanks(
    alloc: Global,
    telling: &mut Telling,
    form: Form,
    blanks: &[Blank],
) -> Result<(), AllocError>
    ensures { OnOk result (AddsRows form (map blank_row blanks.now) telling.old telling.new) }
{
    for blank in blanks {
        telling.add_row(alloc, form, &blank_row(alloc, blank)?)?;
    }
    Ok(())
}

fn add_missing(
    alloc: Global,
    telling: &mut Telling,
    form: Form,
    names: &Names,
) -> Result<(), AllocError>
    ensures { OnOk result (AddsRows form (map missing_row names.now) telling.old telling.new) }
{
    for place in 0..names.len() {
        telling.add_name(alloc, form, names.at(place))?;
    }
    Ok(())
}

fn add_unused(
    alloc: Global,
    telling: &mut Telling,
    form: Form,
    paths: &[Text],
) -> Result<(), AllocError>
    ensures { OnOk result (AddsRows form (map unused_row paths.now) telling.old telling.new) }
{
    for path in paths {
        telling.add_row(alloc, form, &unused_row(alloc, path.as_str())?)?;
    }
    Ok(())
}

fn add_bare(
    alloc: Global,
    telling: &mut Telling,
    form: Form,
    files: &[Bare],
) -> Result<(), AllocError>
    ensures { OnOk result (AddsRows form (map bare_row files.now) telling.old telling.new) }
{
    for bare in files {
        telling.add_row(alloc, form, &bare_row(alloc, bare)?)?;
    }
    Ok(())
}

// Adds a row for each problem.
fn add_problems(
    alloc: Global,
    telling: &mut Telling,
    form: Form,
    problems: &Problems,
) -> Result<(), AllocError>
    ensures { OnOk result ((rows : List Row) × AreRows problems.now rows
        × AddsRows form rows telling.old telling.new) }
{
    let rows = dep5_rows(alloc, problems.dep5)?;
    add_rows(alloc, telling, form, rows.as_slice())?;
    add_flaws(alloc, telling, form, problems.flaws.as_slice())?;
    add_blanks(alloc, telling, form, problems.blanks.as_slice())?;
    add_missing(alloc, telling, form, &problems.names)?;
    add_unused(alloc, telling, form, problems.unused.as_slice())?;
    add_bare(alloc, telling, form, problems.bare.as_slice())
}

/// A text, followed by what is written for problems.
pub(crate) fn with_problems(
    alloc: Global,
    text: LongText,
    form: Form,
    problems: &Problems,
) -> Result<LongText, AllocError>
    ensures { IfOk result (λ told. (rows : List Row) × AreRows problems.now rows
        × (told ≡ text ++ rows_text form false rows)) }
{
    let mut telling = Telling::behind(text);
    add_problems(alloc, &mut telling, form, problems)?;
    Ok(telling.text)
}

/// The lines of problems, or those of one kind.
pub(crate) fn problem_lines(
    alloc: Global,
    problems: &Problems,
    only: Option<Kind>,
) -> Result<LongText, AllocError>
    ensures { IfOk result (λ text. (rows : List Row) × AreRows problems.now rows
        × (text ≡ flat_map (line_if only) rows)) }
{
    with_problems(alloc, LongText::new(alloc), Form::Lines(only), problems)
}
