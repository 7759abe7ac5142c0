//! Revisions of the catalogue and their rules.

ghost use Rattle.std.specs.Prelude.{◌≡◌, ◌∷◌, [], IfOk};
ghost use Rattle.std.specs.String.{string_bytes};
ghost use Rattle.sqlite.specs.Held.{state};
ghost use Rattle.sqlite.specs.Values.{bound};
ghost use Rattle.desk_sql_layout.specs.Cells.{joined, catalogue_cells, rule_cells};
ghost use Rattle.desk_sql_layout.specs.Layout.{catalogue_table, rule_table};
ghost use Rattle.desk_sql_write.specs.Turning.{Adds, with_rows};

use crate::adding::Added;
use crate::statement::execute;
use desk_base::Text;
use desk_model::{CatalogueRow, Fault, RuleRow};
use desk_sql_layout::values::{number, text};
use sqlite::{Alter, Transaction};
use sqlite_value::value::ValueRef;
use std::alloc::{AllocError, Global};

fn revision_values<'a>(row: &'a CatalogueRow) -> [ValueRef<'a>; 2]
    ensures { bound result ≡ catalogue_cells row.now }
{
    [number(row.revision), text(&row.body)]
}

/// Adds a revision of the catalogue.
pub(crate) fn add_revision<S: Alter>(
    tx: &mut Transaction<'_, S>,
    row: &CatalogueRow,
) -> Result<(), Fault>
    ensures same_reference { tx.new.conn.ghost_name ≡ tx.old.conn.ghost_name }
    ensures adds { Adds (with_rows catalogue_table.tree (catalogue_cells row.now ∷ [])) 1
        (state S.Store tx.old.conn.now) (state S.Store tx.new.conn.now) result }
{
    execute(
        tx,
        "INSERT INTO catalogue VALUES (?1, ?2)",
        &revision_values(row),
    )
}

/// The codes of a rule, joined by one blank.
fn join_codes(alloc: Global, codes: &[Text]) -> Result<String, AllocError>
    ensures { IfOk result (λ text. string_bytes text ≡ joined codes.now) }
{
    let mut text = String::new(alloc);
    let Some((first, rest)) = codes.split_first() else {
        return Ok(text);
    };
    text.push_str(first.as_str())?;
    for code in rest {
        text.push(' ')?;
        text.push_str(code.as_str())?;
    }
    Ok(text)
}

fn rule_values<'a>(row: &'a RuleRow, codes: &'a String) -> [ValueRef<'a>; 5]
    requires { string_bytes codes.now ≡ joined row.now.codes }
    ensures { bound result ≡ rule_cells row.now }
{
    [
        number(row.revision),
        text(&row.term),
        text(&row.form),
        text(&row.spelled),
        ValueRef::Text(codes.as_bytes()),
    ]
}

impl Added for RuleRow {
    ghost tree = { rule_table.tree };

    ghost rows = { λ row. rule_cells row ∷ [] };

    fn add<S: Alter>(&self, alloc: Global, tx: &mut Transaction<'_, S>) -> Result<(), Fault> {
        let codes = join_codes(alloc, self.codes.as_slice())?;
        execute(
            tx,
            "INSERT INTO rule VALUES (?1, ?2, ?3, ?4, ?5)",
            &rule_values(self, &codes),
        )
    }
}
