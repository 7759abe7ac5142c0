//! Imports documents.

ghost use Rattle.std.specs.Prelude.{◌≡◌, ◌≤◌, ◌<◌, ◌+◌, ◌^◌, IfOk, IfErr, map, length, Ok, Some, false};
ghost use Rattle.desk_model.specs.Readings.{Readings};
ghost use Rattle.desk_model.specs.Faults.{MayFail};
ghost use Rattle.desk_model.specs.History.{package_row, extracted_row};
ghost use Rattle.desk_model.specs.Answers.{import_answer, refused_alone};
ghost use Rattle.desk_history.specs.FromTables.{imported_as, imported_change, importing_found};
ghost use Rattle.desk_access.specs.Seen.{OfRows};
ghost use Rattle.desk_access.specs.Plans.{IsPlan, IsPlanOf, Plans, SparesStore};
ghost use Rattle.desk_model.specs.declared.command.Command.TheVariants.{Import};

use desk_access::store::Store;
use desk_access::texts::Texts;
use desk_base::{Items, limits};
use desk_model::{
    Answer, Change, Document, DocumentRow, ExtractedRow, Fault, Limit, Package, PackageRow, Plan,
    Profile, Reference, Refusal,
};
use desk_packages::refuse;
use std::alloc::{AllocError, Global};

fn package_rows(
    alloc: Global,
    document: u32,
    packages: Vec<Package>,
) -> Result<Items<PackageRow>, AllocError>
    ensures { IfOk result (λ rows. rows ≡ map (package_row document) packages.items) }
{
    let mut rows = Vec::with_capacity(alloc, packages.len())?;
    for package in packages {
        rows.push(PackageRow {
            document,
            id: package.id,
            name: package.name,
            version: package.version,
            concluded: package.concluded,
            copyright: package.copyright,
            shipped: package.shipped,
        })?;
    }
    Ok(Items::from_vec(rows))
}

fn extracted_rows(
    alloc: Global,
    document: u32,
    references: Vec<Reference>,
) -> Result<Items<ExtractedRow>, AllocError>
    ensures { IfOk result (λ rows. rows ≡ map (extracted_row document) references.items) }
{
    let mut rows = Vec::with_capacity(alloc, references.len())?;
    for reference in references {
        rows.push(ExtractedRow {
            document,
            reference: reference.id,
            body: reference.body,
        })?;
    }
    Ok(Items::from_vec(rows))
}

/// The rows of a new document.
fn import_change(
    alloc: Global,
    number: u32,
    bytes: Items<u8>,
    profile: Profile,
    document: Document,
) -> Result<Change, AllocError>
    ensures { IfOk result (λ change. change ≡ imported_as number bytes profile (Some document)) }
{
    let packages = package_rows(alloc, number, document.packages.into_vec())?;
    let references = extracted_rows(alloc, number, document.references.into_vec())?;
    Ok(Change::Imported {
        document: DocumentRow {
            number,
            namespace: document.namespace,
            bytes,
            profile,
        },
        packages,
        references,
    })
}

/// Imports a document that was read.
fn import_read<S: Store>(
    alloc: Global,
    store: &mut S,
    bytes: Items<u8>,
    profile: Profile,
    document: Document,
) -> Result<Plan, Fault>
    ensures plan { IfOk result (λ plan.
        OfRows (λ t. IsPlan (import_answer (Ok document) bytes (importing_found t))
        (imported_change t bytes profile (Some document)) plan)
        (S.seen store.old) (S.seen store.new)) }
    ensures kept { Plans (S.seen store.old) (S.seen store.new) result }
    ensures fault { IfErr result (MayFail S.tells) }
{
    if let Some((number, is_same)) = store.import_of(
        document.namespace.as_str(),
        bytes.as_slice(),
    )? {
        if is_same {
            return Ok(Plan::Leave(Answer::Again(number)));
        }
        return Ok(refuse(Refusal::NamespaceTaken { document: number }));
    }
    let count = store.document_count()?;
    if count >= limits::DOCUMENTS {
        return Ok(refuse(Refusal::Full(Limit::Documents)));
    }
    let number = count as u32 + 1;
    let change = import_change(alloc, number, bytes, profile, document)?;
    Ok(Plan::Make {
        answer: Answer::Imported(number),
        change,
    })
}

/// Imports the document that bytes spell, and keeps them.
pub fn import<T: Texts, S: Store>(
    alloc: Global,
    texts: &T,
    store: &mut S,
    bytes: Items<u8>,
    profile: Profile,
) -> Result<Plan, Fault>
    ensures plan { (w : Readings) → T.are_right w → IfOk result (λ plan.
        OfRows (IsPlanOf w (Import bytes profile) plan) (S.seen store.old) (S.seen store.new)) }
    ensures kept { Plans (S.seen store.old) (S.seen store.new) result }
    ensures alone { (w : Readings) → T.are_right w
        → SparesStore (refused_alone w (Import bytes profile)) result }
    ensures fault { IfErr result (MayFail S.tells) }
{
    match texts.document(alloc, bytes.as_slice())? {
        Err(fault) => Ok(refuse(Refusal::BadDocument(fault))),
        Ok(document) => import_read(alloc, store, bytes, profile, document),
    }
}

/// Imports the document that bytes spell, and keeps a copy of them.
pub fn import_copy<T: Texts, S: Store>(
    alloc: Global,
    texts: &T,
    store: &mut S,
    bytes: &Items<u8>,
    profile: Profile,
) -> Result<Plan, Fault>
    ensures plan { (w : Readings) → T.are_right w → IfOk result (λ plan.
        OfRows (IsPlanOf w (Import bytes.now profile) plan) (S.seen store.old) (S.seen store.new)) }
    ensures kept { Plans (S.seen store.old) (S.seen store.new) result }
    ensures alone { (w : Readings) → T.are_right w
        → SparesStore (refused_alone w (Import bytes.now profile)) result }
    ensures fault { IfErr result (MayFail S.tells) }
{
    let copy = Vec::from_slice(alloc, bytes.as_slice())?;
    import(alloc, texts, store, Items::from_vec(copy), profile)
}
