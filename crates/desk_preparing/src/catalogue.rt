//! Loads catalogues.

ghost use Rattle.std.specs.Prelude.{◌≡◌, ◌≤◌, ◌<◌, ◌+◌, ◌^◌, IfOk, IfErr, map, length, Ok, Some, false};
ghost use Rattle.desk_model.specs.Readings.{Readings};
ghost use Rattle.desk_model.specs.Faults.{MayFail};
ghost use Rattle.desk_model.specs.History.{rule_row};
ghost use Rattle.desk_model.specs.Answers.{load_answer, refused_alone};
ghost use Rattle.desk_history.specs.FromTables.{loaded_change, loading_found};
ghost use Rattle.desk_access.specs.Seen.{OfRows};
ghost use Rattle.desk_access.specs.Plans.{IsPlan, IsPlanOf, Plans, SparesStore};
ghost use Rattle.desk_model.specs.declared.command.Command.TheVariants.{LoadCatalogue};

use desk_access::store::Store;
use desk_access::texts::Texts;
use desk_base::{Items, Text, limits};
use desk_model::{
    Answer, Catalogue, CatalogueRow, Change, Fault, Limit, Plan, Refusal, Rule, RuleRow,
};
use desk_packages::refuse;
use std::alloc::{AllocError, Global};

fn rule_rows(alloc: Global, revision: u32, rules: Vec<Rule>) -> Result<Items<RuleRow>, AllocError>
    ensures { IfOk result (λ rows. rows ≡ map (rule_row revision) rules.items) }
{
    let mut rows = Items::new(alloc);
    for rule in rules {
        rows.push(RuleRow {
            revision,
            term: rule.term,
            form: rule.form,
            spelled: rule.spelled,
            codes: rule.codes,
        })?;
    }
    Ok(rows)
}

/// Loads a catalogue that was read.
fn load_read<S: Store>(
    alloc: Global,
    store: &mut S,
    text: &Text,
    catalogue: Catalogue,
) -> Result<Plan, Fault>
    ensures plan { IfOk result (λ plan.
        OfRows (λ t. IsPlan (load_answer (Ok catalogue) (loading_found t))
        (loaded_change t text.now (Some catalogue)) plan)
        (S.seen store.old) (S.seen store.new)) }
    ensures kept { Plans (S.seen store.old) (S.seen store.new) result }
    ensures fault { IfErr result (MayFail S.tells) }
{
    let count = store.revision_count()?;
    if count >= limits::REVISIONS {
        return Ok(refuse(Refusal::Full(Limit::Revisions)));
    }
    let revision = count as u32 + 1;
    let body = text.clone()?;
    let rules = rule_rows(alloc, revision, catalogue.rules.into_vec())?;
    Ok(Plan::Make {
        answer: Answer::Revision(revision),
        change: Change::Loaded {
            catalogue: CatalogueRow { revision, body },
            rules,
            forms: catalogue.forms,
        },
    })
}

/// Loads the catalogue that a text is.
pub fn load_catalogue<T: Texts, S: Store>(
    alloc: Global,
    texts: &T,
    store: &mut S,
    text: &Text,
) -> Result<Plan, Fault>
    ensures plan { (w : Readings) → T.are_right w → IfOk result (λ plan.
        OfRows (IsPlanOf w (LoadCatalogue text.now) plan) (S.seen store.old) (S.seen store.new)) }
    ensures kept { Plans (S.seen store.old) (S.seen store.new) result }
    ensures alone { (w : Readings) → T.are_right w
        → SparesStore (refused_alone w (LoadCatalogue text.now)) result }
    ensures fault { IfErr result (MayFail S.tells) }
{
    match texts.catalogue(alloc, text.as_str())? {
        Err(fault) => Ok(refuse(Refusal::BadCatalogue(fault))),
        Ok(catalogue) => load_read(alloc, store, text, catalogue),
    }
}
