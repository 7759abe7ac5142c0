//! Rules of the catalogue.

ghost use Rattle.std.specs.Prelude.{◌≡◌, ◌==◌, ℕ, true, IfErr, IfOk, List, filter, map, length, slice_get};
ghost use Rattle.std.specs.List.{AllByRecursion, list_all, slice_split};
ghost use Rattle.std.specs.Option.{option_map};
ghost use Rattle.desk_history.specs.FromTables.{rule_of, rules_found};
ghost use Rattle.desk_sql_layout.specs.Cells.{is_word, joined, rule_cells};
ghost use Rattle.desk_model.specs.History.{rule_for};
ghost use Rattle.desk_model.specs.declared.row.RuleRow.{RuleRow};
ghost use Rattle.desk_model.specs.Keys.{is_rule_at};
ghost use Rattle.desk_sql_lookup.specs.Rules.{are_words};
ghost use Rattle.desk_sql_layout.specs.Causes.{IsRow};
ghost use Rattle.desk_sql_lookup.specs.LookUps.{LooksUp};
ghost use Rattle.desk_base.specs.Borrowed.{texts};

use desk_base::{Items, Text};
use desk_model::{Fault, Rule};
use desk_sql_layout::columns::{str_at, text_at};
use desk_sql_layout::query::{query, text};
use desk_sql_layout::values::number;
use sqlite::{Alter, Connection, Row};
use std::alloc::{AllocError, Global};

/// The parts of a text between blanks.
fn parts_of(alloc: Global, text: &str) -> Result<Vec<&str>, AllocError>
    ensures { IfOk result (λ parts. texts parts.items ≡ slice_split (λ b. b == 32) text.now) }
{
    text.split(' ').collect(alloc)
}

/// Copies of texts.
fn copies(alloc: Global, parts: &[&str]) -> Result<Vec<Text>, AllocError>
    ensures { IfOk result (λ copies. copies.items ≡ texts parts.now) }
{
    let mut copies = Vec::new(alloc);
    for part in parts {
        copies.push(Text::of(alloc, part)?)?;
    }
    Ok(copies)
}

/// The words that are joined by one blank in a text.
fn words_of(alloc: Global, text: &str) -> Result<Items<Text>, AllocError>
    ensures { IfOk result (λ words. (xs : List (List ℕ)) → list_all is_word xs ≡ true
        → text.now ≡ joined xs → words ≡ xs) }
{
    if text.is_empty() {
        return Ok(Items::new(alloc));
    }
    let parts = parts_of(alloc, text)?;
    Ok(Items::from_vec(copies(alloc, &parts)?))
}

fn read_rule(alloc: Global, row: &Row) -> Result<Rule, Fault>
    ensures value { IfOk result (λ found. (x : RuleRow) → list_all is_word x.codes ≡ true
        → row.now ≡ rule_cells x → found ≡ rule_of x) }
    ensures cause { IfErr result (λ fault. (x : RuleRow) → row.now ≡ rule_cells x
        → IsRow row.now → fault ≡ Fault.Memory) }
{
    Ok(Rule {
        term: text_at(alloc, row, 1)?,
        form: text_at(alloc, row, 2)?,
        spelled: text_at(alloc, row, 3)?,
        codes: words_of(alloc, str_at(row, 4)?)?,
    })
}

fn first_rule(alloc: Global, rows: &[Row]) -> Result<Option<Rule>, Fault>
    ensures value { IfOk result (λ found. (xs : List RuleRow) → are_words xs ≡ true
        → rows.now ≡ map rule_cells xs → found ≡ option_map rule_of (slice_get xs 0)) }
    ensures cause { IfErr result (λ fault. (xs : List RuleRow) → rows.now ≡ map rule_cells xs
        → AllByRecursion IsRow rows.now → fault ≡ Fault.Memory) }
{
    match rows.first() {
        Some(row) => Ok(Some(read_rule(alloc, row)?)),
        None => Ok(None),
    }
}

fn select_rule<S: Alter>(
    conn: &mut Connection<S>,
    revision: u32,
    term: &str,
    form: &str,
) -> Result<Vec<Row>, Fault>
    ensures { LooksUp S.Store conn.old conn.new result (λ rows t.
        (rows.items ≡ map rule_cells (filter (is_rule_at revision term.now form.now) t.rule))
        × (are_words (filter (is_rule_at revision term.now form.now) t.rule) ≡ true)) }
{
    query(
        conn,
        "SELECT revision, term, form, spelled, codes FROM rule WHERE revision = ?1 AND term = ?2 AND form = ?3 ORDER BY revision, term, form",
        &[number(revision), text(term), text(form)],
    )
}

/// The rule for a term and a form in the revision in force, if there are this many revisions.
pub fn rule<S: Alter>(
    alloc: Global,
    conn: &mut Connection<S>,
    revisions: u32,
    term: &str,
    form: &str,
) -> Result<Option<Rule>, Fault>
    ensures { LooksUp S.Store conn.old conn.new result (λ found t.
        length t.catalogue ≡ revisions → found ≡ rule_for (rules_found t) term.now form.now) }
{
    let rows = select_rule(conn, revisions, term, form)?;
    first_rule(alloc, &rows)
}
