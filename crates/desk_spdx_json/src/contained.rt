//! The files of a package.

ghost use Rattle.std.specs.Prelude.{◌≡◌, ◌++◌, OnOk, codes};
ghost use Rattle.serde_json.specs.Find.{get};
ghost use Rattle.serde_json.specs.View.{view, items_view};
ghost use Rattle.desk_base.specs.TextSets.{has_text};
ghost use Rattle.desk_spdx_json.specs.Kept.{kept_contained};
ghost use Rattle.desk_spdx_json.specs.Steps.{member_at};
ghost use Rattle.desk_spdx_json.specs.Values.{if_array, items_steps, word_in};

use crate::steps::{Steps, What, item_at, member_at};
use crate::ties::add_tie;
use desk_spdx_files::{text_or_empty, word_in};
use serde_json::Value;
use std::alloc::{AllocError, Global};
use std::collections::BTreeSet;

// Adds that a package contains a file, unless that is idle.
fn add_contained(
    alloc: Global,
    steps: &mut Steps<'_>,
    at: &str,
    owner: &str,
    idle: &BTreeSet<&str>,
    value: &Value,
) -> Result<(), AllocError>
    ensures { OnOk result (steps.new ≡ steps.old
        ++ kept_contained (has_text idle.now) owner.now at.now (view value.now)) }
{
    if idle.contains(text_or_empty(value)) {
        return Ok(());
    }
    add_tie(alloc, steps, at, owner, "CONTAINS", value)
}

// Adds that a package contains each file of a list.
fn add_all_contained(
    alloc: Global,
    steps: &mut Steps<'_>,
    at: &str,
    owner: &str,
    idle: &BTreeSet<&str>,
    list: &[Value],
) -> Result<(), AllocError>
    ensures { OnOk result (steps.new ≡ steps.old
        ++ items_steps (kept_contained (has_text idle.now) owner.now) at.now 0
        (items_view list.now)) }
{
    for (i, value) in list.iter().enumerate() {
        let place = item_at(alloc, at, i)?;
        add_contained(alloc, steps, &place, owner, idle, value)?;
    }
    Ok(())
}

/// Adds that a package contains the files that it lists.
pub(crate) fn add_contents(
    alloc: Global,
    steps: &mut Steps<'_>,
    at: &str,
    idle: &BTreeSet<&str>,
    value: &Value,
) -> Result<(), AllocError>
    ensures { OnOk result (steps.new ≡ steps.old
        ++ if_array (kept_contained (has_text idle.now) (word_in (codes "SPDXID") (view value.now)))
        (member_at at.now (codes "hasFiles")) (get (codes "hasFiles") (view value.now))) }
{
    let Some(files) = value.get("hasFiles") else {
        return Ok(());
    };
    let place = member_at(alloc, at, "hasFiles")?;
    let owner = word_in(value, "SPDXID");
    match files.as_array() {
        Some(list) => add_all_contained(alloc, steps, &place, owner, idle, list.as_slice()),
        None => steps.add(alloc, &place, What::BadType),
    }
}
