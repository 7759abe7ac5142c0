//! A credit as a table of TOML.

ghost use Rattle.std.specs.Prelude.{◌≡◌, ◌++◌, ◌∷◌, [], codes, IfOk};
ghost use Rattle.toml.specs.Data.{string};
ghost use Rattle.toml.specs.View.{table_view, view};
ghost use Rattle.desk_credits.specs.Written.{credit_document, credit_members};

use desk_fill::Credit;
use std::alloc::{AllocError, Global};
use toml::{Table, Value};

// A text as a value.
fn string_value(alloc: Global, text: &str) -> Result<Value, AllocError>
    ensures { IfOk result (λ v. view v ≡ string text.now) }
{
    Ok(Value::String(String::from_str(alloc, text)?))
}

// A credit with its keys.
fn credit_table(alloc: Global, credit: &Credit) -> Result<Table, AllocError>
    ensures { IfOk result (λ t. table_view t ≡ credit_members credit.now) }
{
    let mut table = Table::new(alloc);
    let name = string_value(alloc, credit.name.as_str())?;
    table.insert(String::from_str(alloc, "package")?, name)?;
    let text = string_value(alloc, credit.text.as_str())?;
    table.insert(String::from_str(alloc, "text")?, text)?;
    if let Some(version) = &credit.version {
        let version = string_value(alloc, version.as_str())?;
        table.insert(String::from_str(alloc, "version")?, version)?;
    }
    Ok(table)
}

/// A document with a credit. The only error is lack of memory.
pub(crate) fn credit_document(alloc: Global, credit: &Credit) -> Result<Table, AllocError>
    ensures { IfOk result (λ t. table_view t ≡ credit_document credit.now) }
{
    let mut table = Table::new(alloc);
    let credit = credit_table(alloc, credit)?;
    let values = vec![in alloc; Value::Table(credit)]?;
    table.insert(String::from_str(alloc, "credit")?, Value::Array(values))?;
    Ok(table)
}
