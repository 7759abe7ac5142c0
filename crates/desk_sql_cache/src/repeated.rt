//! The conclusions of a document and the choices of a release. All are read at once if one after
//! another is asked for with no change in between, as a freeze does.

ghost use Rattle.std.specs.Prelude.{◌≡◌, ◌↔◌, ◌&&◌, ℕ, true, nat_lt, not, is_some, IfNone, IfOk, IfSome, OnOk, List, Option, filter, map};
ghost use Rattle.desk_model.specs.Conclusions.{office_text};
ghost use Rattle.desk_model.specs.Keys.{is_choice_in, is_choice_of};
ghost use Rattle.desk_model.specs.Tables.{Tables};
ghost use Rattle.desk_sql_layout.specs.Shown.{is_conclusion_in};
ghost use Rattle.desk_sql_cache.specs.Repeated.{AreChoices, AreConclusions, choices_asked, conclusions_asked, is_named, no_choices, no_conclusions};

use desk_base::Text;
use desk_memory_rows::{ByConcluded, ByPackage};
use desk_model::{ChoiceRow, ConclusionRow};
use desk_sorted::{Appended, Sought};
use std::alloc::{AllocError, Global};

/// How many in a row are looked up one at a time before all are read.
const ONE_BY_ONE: u32 = 16;

/// The document whose conclusions were asked for last, how many times in a row, and all of them if
/// they were read.
#[derive(Drop)]
pub struct Conclusions {
    document: u32,
    asked: u32,
    rows: Option<Appended<ConclusionRow>>,
}

impl Conclusions {
    pub(crate) fn nothing() -> Conclusions
        ensures { result ≡ no_conclusions }
    {
        Conclusions {
            document: 0,
            asked: 0,
            rows: None,
        }
    }

    /// All conclusions of a document.
    pub fn of(document: u32, rows: Appended<ConclusionRow>) -> Conclusions
        ensures are { (t : Tables)
            → rows.rows.items ≡ filter (is_conclusion_in document) t.conclusion
            → AreConclusions result t }
        ensures rows { (result.document ≡ document) × (result.rows ≡ Option.Some rows) }
        ensures asked { result.asked ≡ 0 }
    {
        Conclusions {
            document,
            asked: 0,
            rows: Some(rows),
        }
    }

    /// Counts one more request for a document, and returns whether all its conclusions are to be
    /// read now.
    pub fn ask(&mut self, document: u32) -> bool
        ensures is { self.new ≡ conclusions_asked document self.old }
        ensures are { (t : Tables) → AreConclusions self.old t → AreConclusions self.new t }
        ensures document { self.new.document ≡ document }
        ensures due { result ≡ (nat_lt 16 self.new.asked && not (is_some self.new.rows)) }
    {
        if self.document != document {
            self.document = document;
            self.asked = 0;
            self.rows = None;
        }
        self.asked = self.asked.saturating_add(1);
        self.asked > ONE_BY_ONE && self.rows.is_none()
    }

    /// All conclusions of a document, if they were read.
    pub fn rows_of(&self, document: u32) -> Option<&Appended<ConclusionRow>>
        ensures are { IfSome result (λ rows. (t : Tables) → AreConclusions self.now t
            → rows.now.rows.items ≡ filter (is_conclusion_in document) t.conclusion) }
        ensures none { IfNone result (self.now.document ≡ document
            → self.now.rows ≡ Option.None) }
    {
        match &self.rows {
            Some(rows) if self.document == document => Some(rows),
            _ => None,
        }
    }
}

/// The conclusion for a package, among these.
pub fn expression_in(
    rows: &Appended<ConclusionRow>,
    document: u32,
    id: &str,
) -> Result<Option<Text>, AllocError>
    ensures { IfOk result (λ found. found ≡ office_text rows.now.rows.items document id.now) }
{
    match rows.find(&ByConcluded { document, id }) {
        Some(row) => Ok(Some(row.expression.clone()?)),
        None => Ok(None),
    }
}

/// The release whose choices were asked for last, how many times in a row, and all of them if they
/// were read.
#[derive(Drop)]
pub struct Choices {
    release: Option<Text>,
    asked: u32,
    rows: Option<Appended<ChoiceRow>>,
}

fn is_named(known: &Option<Text>, name: &str) -> bool
    ensures is { result ≡ is_named known.now name.now }
    ensures named { (result ≡ true) ↔ (known.now ≡ Option.Some name.now) }
{
    match known {
        Some(known) => known.as_str() == name,
        None => false,
    }
}

impl Choices {
    pub(crate) fn nothing() -> Choices
        ensures { result ≡ no_choices }
    {
        Choices {
            release: None,
            asked: 0,
            rows: None,
        }
    }

    /// All choices of a release.
    pub fn of(release: Text, rows: Appended<ChoiceRow>) -> Choices
        ensures are { (t : Tables) → rows.rows.items ≡ filter (is_choice_in release) t.choice
            → AreChoices result t }
        ensures rows { (result.release ≡ Option.Some release)
            × (result.rows ≡ Option.Some rows) }
        ensures asked { result.asked ≡ 0 }
    {
        Choices {
            release: Some(release),
            asked: 0,
            rows: Some(rows),
        }
    }

    /// Counts one more request for a release, and returns whether all its choices are to be read
    /// now.
    pub fn ask(&mut self, alloc: Global, release: &str) -> Result<bool, AllocError>
        ensures is { OnOk result (self.new ≡ choices_asked release.now self.old) }
        ensures are { (t : Tables) → AreChoices self.old t → AreChoices self.new t }
        ensures release { OnOk result (self.new.release ≡ Option.Some release.now) }
        ensures due { IfOk result (λ due. due
            ≡ (nat_lt 16 self.new.asked && not (is_some self.new.rows))) }
    {
        if !is_named(&self.release, release) {
            *self = Choices {
                release: Some(Text::of(alloc, release)?),
                asked: 0,
                rows: None,
            };
        }
        self.asked = self.asked.saturating_add(1);
        Ok(self.asked > ONE_BY_ONE && self.rows.is_none())
    }

    /// All choices of a release, if they were read.
    pub fn rows_of(&self, release: &str) -> Option<&Appended<ChoiceRow>>
        ensures are { IfSome result (λ rows. (t : Tables) → AreChoices self.now t
            → rows.now.rows.items ≡ filter (is_choice_in release.now) t.choice) }
        ensures none { IfNone result (self.now.release ≡ Option.Some release.now
            → self.now.rows ≡ Option.None) }
    {
        match &self.rows {
            Some(rows) if is_named(&self.release, release) => Some(rows),
            _ => None,
        }
    }
}

fn is_of(key: &ByPackage<'_>, row: &ChoiceRow) -> bool
    ensures { result ≡ is_choice_of key.now.release.now key.now.document key.now.id.now row.now }
{
    key.side_of(row).is_eq()
}

/// The terms that are chosen for a package, among these.
pub fn terms_in(
    alloc: Global,
    rows: &Appended<ChoiceRow>,
    key: &ByPackage<'_>,
) -> Result<Vec<Text>, AllocError>
    ensures { IfOk result (λ terms. terms.items ≡ map (λ row. row.term) (filter (is_choice_of
        key.now.release.now key.now.document key.now.id.now) rows.now.rows.items)) }
{
    let mut terms = Vec::new(alloc);
    for row in rows.among(key) {
        if is_of(key, row) {
            terms.push(row.term.clone()?)?;
        }
    }
    Ok(terms)
}
