//! The text of a reply that has rows. Each row is printed separately, so a reply takes little more
//! memory than its text.

ghost use Rattle.std.specs.Prelude.{◌≡◌, ◌∷◌, ◌++◌, [], List, false, IfOk, OnOk, codes, map, string_bytes};
ghost use Rattle.std.specs.List.{flat_map};
ghost use Rattle.serde_json.specs.Data.{Data};
ghost use Rattle.serde_json.specs.View.{view};
ghost use Rattle.serde_json.specs.Written.{compact_text, has_float};
ghost use Rattle.desk_json.specs.Replies.{rows_reply};
ghost use Rattle.desk_json.specs.Rows.{behind_a_comma};

use serde_json::Value;
use std::alloc::{AllocError, Global};

/// What a reply may have as a row.
pub(crate) trait Row {
    ghost json: { Self → Data };

    /// The row as JSON.
    fn value(&self, alloc: Global) -> Result<Value, AllocError>
        ensures { IfOk result (λ v. view v ≡ json self.now) };

    // (no clause of `serde_json` says how a number that isn't an integer is printed)
    ghost has_integers: { (row : Self) → has_float (json row) ≡ false };
}

/// The text of a value whose numbers are integers.
pub(crate) fn value_text(alloc: Global, value: Value) -> Result<String, AllocError>
    requires { has_float (view value) ≡ false }
    ensures { IfOk result (λ text. string_bytes text ≡ compact_text (view value)) }
{
    let text = value.to_string(alloc);
    drop(value);
    text
}

/// The text of a row.
pub(crate) fn row_text<R: Row>(alloc: Global, row: &R) -> Result<String, AllocError>
    ensures { IfOk result (λ text. string_bytes text ≡ compact_text (R.json row.now)) }
{
    let value = row.value(alloc)?;
    value_text(alloc, value)
}

/// About the fewest bytes that a row takes.
const ROW_BYTES: usize = 32;

/// Adds rows after another one.
fn add_rows<R: Row>(alloc: Global, text: &mut String, rows: &[R]) -> Result<(), AllocError>
    ensures { OnOk result (string_bytes text.new
        ≡ string_bytes text.old ++ flat_map (λ row. behind_a_comma (R.json row)) rows.now) }
{
    // a text that grows is in memory twice
    text.reserve(rows.len().saturating_mul(ROW_BYTES))?;
    for row in rows {
        text.push_str(",")?;
        text.push_str(row_text(alloc, row)?.as_str())?;
    }
    Ok(())
}

/// The reply with a row and others.
pub(crate) fn reply_from<F: Row, R: Row>(
    alloc: Global,
    first: &F,
    others: &[R],
) -> Result<String, AllocError>
    ensures { IfOk result (λ text. string_bytes text
        ≡ compact_text (rows_reply (F.json first.now ∷ map R.json others.now))) }
{
    let mut text = String::from_str(alloc, "{\"rows\":[")?;
    text.push_str(row_text(alloc, first)?.as_str())?;
    add_rows(alloc, &mut text, others)?;
    text.push_str("]}")?;
    Ok(text)
}

/// The reply with some rows.
pub(crate) fn reply_of<R: Row>(alloc: Global, rows: &[R]) -> Result<String, AllocError>
    ensures { IfOk result (λ text. string_bytes text
        ≡ compact_text (rows_reply (map R.json rows.now))) }
{
    match rows.split_first() {
        Some((first, others)) => reply_from(alloc, first, others),
        None => String::from_str(alloc, "{\"rows\":[]}"),
    }
}
