//! The files of a document without which nothing that ships changes.

ghost use Rattle.std.specs.Prelude.{◌≡◌, ◌++◌, ℕ, List, IfOk, OnOk, codes, filter, not};
ghost use Rattle.serde_json.specs.View.{view, items_view};
ghost use Rattle.desk_base.specs.Borrowed.{texts};
ghost use Rattle.desk_base.specs.TextSets.{IsSetOf, has_text};
ghost use Rattle.desk_spdx_files.specs.Texts.{items_of, listed_in, texts_by};
ghost use Rattle.desk_spdx_files.specs.Files.{coded_files, has_codes, is_coded, needed_ids, is_idle, idle_by};

use crate::texts::{add_ids_of, add_listed_in, items_of};
use crate::ties::add_tied;
use desk_base::text_set;
use serde_json::Value;
use std::alloc::{AllocError, Global};
use std::collections::BTreeSet;

/// The identifier of the document itself.
pub const DOCUMENT_ID: &str = "SPDXRef-DOCUMENT";

/// Which files of a document are kept.
#[derive(Clone, Copy)]
pub enum Files {
    /// All of them.
    All,
    /// Those that aren't idle: without one of these, what ships could change.
    Needed,
}

// Whether some of these packages has a verification code.
fn is_coded(packages: &[Value]) -> bool
    ensures { result ≡ is_coded (items_view packages.now) }
{
    for owner in packages {
        if owner.get("packageVerificationCode").is_some() {
            return true;
        }
    }
    false
}

// Whether some package of the document has one.
fn has_codes(value: &Value) -> bool
    ensures { result ≡ has_codes (view value.now) }
{
    is_coded(items_of(value, "packages"))
}

// Adds the files that packages list.
fn add_files<'a>(found: &mut Vec<&'a str>, packages: &'a [Value]) -> Result<(), AllocError>
    ensures { OnOk result (texts found.new.items ≡ texts found.old.items
        ++ texts_by (listed_in (codes "hasFiles")) (items_view packages.now)) }
{
    for owner in packages {
        add_listed_in(found, owner, "hasFiles")?;
    }
    Ok(())
}

// Adds the files that packages list, if there are codes.
fn add_coded<'a>(found: &mut Vec<&'a str>, value: &'a Value, coded: bool) -> Result<(), AllocError>
    ensures { OnOk result (texts found.new.items ≡ texts found.old.items
        ++ coded_files coded (items_of (codes "packages") (view value.now))) }
{
    if coded {
        return add_files(found, items_of(value, "packages"));
    }
    Ok(())
}

// Adds the identifiers that no idle file has.
fn add_needed<'a>(found: &mut Vec<&'a str>, value: &'a Value) -> Result<(), AllocError>
    ensures { OnOk result (texts found.new.items
        ≡ texts found.old.items ++ needed_ids (view value.now)) }
{
    found.push("")?;
    found.push(DOCUMENT_ID)?;
    add_ids_of(found, value, "packages", "SPDXID")?;
    add_ids_of(found, value, "snippets", "SPDXID")?;
    add_ids_of(found, value, "hasExtractedLicensingInfos", "licenseId")?;
    add_listed_in(found, value, "documentDescribes")?;
    let coded = has_codes(value);
    add_tied(found, value, coded)?;
    add_coded(found, value, coded)
}

// The identifiers that no idle file has.
fn needed_ids<'a>(alloc: Global, value: &'a Value) -> Result<BTreeSet<&'a str>, AllocError>
    ensures { IfOk result (IsSetOf (needed_ids (view value.now))) }
{
    let mut found = Vec::new(alloc);
    add_needed(&mut found, value)?;
    text_set(alloc, found.as_slice())
}

// Drops the texts that are in a set.
fn drop_known(found: &mut Vec<&str>, set: &BTreeSet<&str>)
    ensures { texts found.new.items
        ≡ filter (λ id. not (has_text set.now id)) (texts found.old.items) }
{
    found.retain(|id| !set.contains(*id));
}

// The identifiers of the files that are idle.
fn idle_files<'a>(alloc: Global, value: &'a Value) -> Result<BTreeSet<&'a str>, AllocError>
    ensures { IfOk result (λ set. (id : List ℕ) → has_text set id ≡ is_idle (view value.now) id) }
{
    let needed = needed_ids(alloc, value)?;
    let mut found = Vec::new(alloc);
    add_ids_of(&mut found, value, "files", "SPDXID")?;
    drop_known(&mut found, &needed);
    text_set(alloc, found.as_slice())
}

/// The identifiers of the files that are left out.
pub fn idle_by<'a>(
    alloc: Global,
    files: Files,
    value: &'a Value,
) -> Result<BTreeSet<&'a str>, AllocError>
    ensures { IfOk result (λ set. (id : List ℕ)
        → has_text set id ≡ idle_by files (view value.now) id) }
{
    match files {
        Files::All => text_set(alloc, &[]),
        Files::Needed => idle_files(alloc, value),
    }
}
