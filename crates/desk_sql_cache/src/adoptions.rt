//! The references of a document that are adopted, kept beside the rows.

ghost use Rattle.std.specs.Prelude.{◌≡◌, ◌+◌, ◌||◌, ℕ, List, None, Some, true, if◌then◌else◌, IfOk, OnOk, length};
ghost use Rattle.std.specs.BTreeSet.{contains_text};
ghost use Rattle.std.specs.List.{list_any};
ghost use Rattle.std.specs.Str.{bytes_eq};
ghost use Rattle.desk_history.specs.FromTables.{adoption_count};
ghost use Rattle.desk_model.specs.Conclusions.{licence_for};
ghost use Rattle.desk_model.specs.Tables.{Tables, applied};
ghost use Rattle.desk_model.specs.declared.command.Change.TheVariants.{Adopted};
ghost use Rattle.desk_sql_lookup.specs.LookUps.{LooksUp};
ghost use Rattle.desk_sql_cache.specs.References.{AreAdopted, lacks};

use desk_base::Text;
use desk_model::{AdoptionRow, Change, Fault};
use sqlite::{Alter, Connection};
use std::alloc::{AllocError, Global};
use std::collections::BTreeSet;

/// How many references of a document are adopted, and a set of references that includes all of
/// these.
#[derive(Drop)]
pub struct Adoptions {
    /// The document's number.
    pub document: u32,
    /// How many of its references are adopted.
    pub count: u64,
    references: BTreeSet<String>,
}

fn set_of(alloc: Global, texts: &[Text]) -> Result<BTreeSet<String>, AllocError>
    ensures { IfOk result (λ set. (reference : List ℕ)
        → contains_text set reference ≡ list_any (λ text. bytes_eq text reference) texts.now) }
{
    let mut set = BTreeSet::new(alloc);
    for text in texts {
        let key = String::from_str(alloc, text.as_str())?;
        set.insert(key)?;
    }
    Ok(set)
}

impl Adoptions {
    /// The adoptions of a document that has adopted these references.
    fn of(alloc: Global, document: u32, texts: &[Text]) -> Result<Adoptions, AllocError>
        ensures document { IfOk result (λ kept. kept.document ≡ document) }
        ensures count { IfOk result (λ kept. kept.count ≡ length texts.now) }
        ensures references { IfOk result (λ kept. (reference : List ℕ)
            → contains_text kept.references reference
            ≡ list_any (λ text. bytes_eq text reference) texts.now) }
    {
        let references = set_of(alloc, texts)?;
        Ok(Adoptions {
            document,
            count: texts.len() as u64,
            references,
        })
    }

    /// Whether it is known that a reference isn't adopted.
    pub fn lacks(&self, document: u32, reference: &str) -> bool
        ensures is { result ≡ lacks self.now document reference.now }
        ensures none { result ≡ true → (t : Tables) → AreAdopted (Some self.now) t
            → licence_for t.adoption document reference.now ≡ None }
    {
        if self.document != document {
            return false;
        }
        !self.references.contains(reference)
    }

    /// Adds a reference of the document that was adopted. `is_new` says whether it wasn't before.
    fn adopt(&mut self, alloc: Global, reference: &str, is_new: bool) -> Result<(), AllocError>
        ensures document { self.new.document ≡ self.old.document }
        ensures count { OnOk result
            (self.new.count ≡ self.old.count + (if is_new then 1 else 0)) }
        ensures references { OnOk result ((other : List ℕ)
            → contains_text self.new.references other
            ≡ (bytes_eq reference.now other || contains_text self.old.references other)) }
    {
        let Some(count) = self.count.checked_add(u64::from(is_new)) else {
            return Err(AllocError);
        };
        let key = String::from_str(alloc, reference)?;
        self.references.insert(key)?;
        self.count = count;
        Ok(())
    }
}

/// The references of a document that are adopted in the rows of a database.
pub fn read_adoptions<S: Alter>(
    alloc: Global,
    conn: &mut Connection<S>,
    document: u32,
) -> Result<Adoptions, Fault>
    ensures looks { LooksUp S.Store conn.old conn.new result (λ kept t.
        AreAdopted (Some kept) t) }
    ensures document { IfOk result (λ kept. kept.document ≡ document) }
{
    let texts = desk_sql_lookup::adopted_references(alloc, conn, document)?;
    Ok(Adoptions::of(alloc, document, &texts)?)
}

/// Whether an adoption is of a new reference. If that isn't known, it is looked up in the rows.
fn adds_one<S: Alter>(
    alloc: Global,
    conn: &mut Connection<S>,
    kept: &Adoptions,
    row: &AdoptionRow,
) -> Result<bool, Fault>
    ensures { LooksUp S.Store conn.old conn.new result (λ is_new t. AreAdopted (Some kept.now) t
        → adoption_count (applied (Adopted row.now) t) row.now.document
        ≡ adoption_count t row.now.document + (if is_new then 1 else 0)) }
{
    if kept.lacks(row.document, row.reference.as_str()) {
        return Ok(true);
    }
    let licence = desk_sql_lookup::adoption(alloc, conn, row.document, row.reference.as_str())?;
    Ok(licence.is_none())
}

/// Changes the adoptions by a change that is to be written.
pub(crate) fn change_adoptions<S: Alter>(
    alloc: Global,
    conn: &mut Connection<S>,
    kept: &mut Adoptions,
    change: &Change,
) -> Result<(), Fault>
    ensures looks { LooksUp S.Store conn.old conn.new result (λ done t.
        AreAdopted (Some kept.old) t → AreAdopted (Some kept.new) (applied change.now t)) }
    ensures document { kept.new.document ≡ kept.old.document }
{
    let Change::Adopted(row) = change else {
        return Ok(());
    };
    if row.document != kept.document {
        return Ok(());
    }
    let is_new = adds_one(alloc, conn, kept, row)?;
    kept.adopt(alloc, row.reference.as_str(), is_new)?;
    Ok(())
}
