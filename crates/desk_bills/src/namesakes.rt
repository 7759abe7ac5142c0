//! Packages by their names and versions.

ghost use Rattle.std.specs.Prelude.{◌≡◌, ◌++◌, ◌∷◌, [], List, IfOk, OnOk};
ghost use Rattle.desk_model.specs.declared.row.PackageRow.{PackageRow as Row};
ghost use Rattle.desk_bills.specs.Lacking.{Knows, first_document, namesake_of};

use desk_base::Key;
use desk_model::PackageRow;
use std::alloc::{AllocError, Global};
use std::collections::BTreeMap;

/// The name and the version of a package.
#[derive(Drop, PartialEq, Eq, PartialOrd, Ord)]
pub(crate) struct Namesake {
    name: Key,
    version: Option<Key>,
}

fn namesake_of(alloc: Global, row: &PackageRow) -> Result<Namesake, AllocError>
    ensures { IfOk result (λ namesake. namesake ≡ namesake_of row.now) }
{
    let name = Key::exact(alloc, row.name.as_str())?;
    let version = match &row.version {
        Some(version) => Some(Key::exact(alloc, version.as_str())?),
        None => None,
    };
    Ok(Namesake { name, version })
}

/// The document of the first package with the name and the version of this one, which is noted if
/// none was before.
pub(crate) fn first_document(
    alloc: Global,
    firsts: &mut BTreeMap<Namesake, u32>,
    row: &PackageRow,
) -> Result<u32, AllocError>
    ensures first { (ps : List Row) → Knows ps firsts.old
        → IfOk result (λ document. document ≡ first_document ps row.now) }
    ensures knows { (ps : List Row) → Knows ps firsts.old
        → OnOk result (Knows (ps ++ row.now ∷ []) firsts.new) }
{
    let namesake = namesake_of(alloc, row)?;
    if let Some(first) = firsts.get(&namesake) {
        return Ok(*first);
    }
    firsts.insert(namesake, row.document)?;
    Ok(row.document)
}
