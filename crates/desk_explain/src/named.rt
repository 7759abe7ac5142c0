//! The entries of a name.

ghost use Rattle.std.specs.Prelude.{◌≡◌, ◌++◌, filter, flat_map, IfOk, OnOk};
ghost use Rattle.desk_explain.specs.Explanations.{entries_named, is_named};

use crate::conditions::CONDITIONS;
use crate::entry::Entry;
use crate::faults::{CATALOGUE_FAULTS, DOCUMENT_FAULTS, EXPRESSION_FAULTS, OTHER_FAULTS};
use crate::findings::FINDINGS;
use crate::problems::PROBLEMS;
use crate::refusals::REFUSALS;
use std::alloc::{AllocError, Global};

/// What the pages say: their tables, in their order.
pub const TABLES: [&[Entry]; 8] = [
    &REFUSALS,
    &DOCUMENT_FAULTS,
    &EXPRESSION_FAULTS,
    &OTHER_FAULTS,
    &FINDINGS,
    &CATALOGUE_FAULTS,
    &CONDITIONS,
    &PROBLEMS,
];

// Adds the entries of a table that have the name.
fn add_named(found: &mut Vec<Entry>, table: &[Entry], name: &str) -> Result<(), AllocError>
    ensures { OnOk result (found.new.items
        ≡ found.old.items ++ filter (is_named name.now) table.now) }
{
    for entry in table {
        if name == entry.name {
            found.push(*entry)?;
        }
    }
    Ok(())
}

/// What the tables say about a name with exactly this spelling, in their order; empty if the desk
/// prints no such name.
pub fn entries(alloc: Global, tables: &[&[Entry]], name: &str) -> Result<Vec<Entry>, AllocError>
    ensures { IfOk result (λ found. found.items ≡ entries_named name.now tables.now) }
{
    let mut found = Vec::new(alloc);
    for table in tables {
        add_named(&mut found, table, name)?;
    }
    Ok(found)
}
