//! Relationships.

ghost use Rattle.std.specs.Prelude.{◌≡◌, ◌++◌, ◌∷◌, [], IfOk, OnOk, codes};
ghost use Rattle.std.specs.String.{string_bytes};
ghost use Rattle.serde_json.specs.Find.{as_str};
ghost use Rattle.serde_json.specs.View.{view};
ghost use Rattle.desk_spdx_json.specs.Parts.{tie_step};

use crate::steps::{Steps, What};
use crate::words::is_word;
use desk_fields::Tag;
use serde_json::Value;
use std::alloc::{AllocError, Global};

/// The words of a relationship.
pub fn relationship_text(
    alloc: Global,
    left: &str,
    kind: &str,
    right: &str,
) -> Result<String, AllocError>
    ensures { IfOk result (λ s. string_bytes s ≡ left.now ++ (codes " " ++ (kind.now ++ (codes " " ++ right.now)))) }
{
    format!(in alloc; "{left} {kind} {right}")
}

/// Adds the relationship from an element to the one that a value names.
pub(crate) fn add_tie(
    alloc: Global,
    steps: &mut Steps<'_>,
    at: &str,
    left: &str,
    kind: &str,
    value: &Value,
) -> Result<(), AllocError>
    ensures { OnOk result (steps.new
        ≡ steps.old ++ tie_step at.now left.now kind.now (as_str (view value.now)) ∷ []) }
{
    let Some(right) = value.as_str() else {
        return steps.add(alloc, at, What::BadType);
    };
    if !is_word(right) {
        return steps.add(alloc, at, What::BadValue);
    }
    let text = relationship_text(alloc, left, kind, right)?;
    steps.add(alloc, at, What::Composed(Tag::Relationship, text))
}
