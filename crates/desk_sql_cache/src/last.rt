//! What look-ups found last, for those that ask again: for each package a freeze asks for the same
//! document and the same rule, and for what was concluded and chosen for the package.

ghost use Rattle.std.specs.Prelude.{◌≡◌, ℕ, List, Some, IfOk, IfSome, OnErr, OnOk, find};
ghost use Rattle.std.specs.Option.{option_map};
ghost use Rattle.desk_model.specs.History.{rule_for};
ghost use Rattle.desk_model.specs.Keys.{is_document};
ghost use Rattle.desk_model.specs.Tables.{Tables, applied};
ghost use Rattle.desk_model.specs.declared.command.Change.{Change};
ghost use Rattle.desk_history.specs.FromTables.{known_document, rules_found};
ghost use Rattle.desk_sql_cache.specs.Last.{AreLast, IsDocument, IsRule, document_kept, last_after, nothing_last, rule_kept, rule_noted};

use crate::repeated::{Choices, Conclusions};
use desk_base::{Items, Text};
use desk_model::{Profile, Rule};
use std::alloc::{AllocError, Global};

/// A document with its profile, a rule, and what was asked for repeatedly with no change in
/// between.
#[derive(Drop)]
pub struct Last {
    document: Option<(u32, Profile)>,
    rule: Option<Rule>,
    /// The conclusions that were asked for.
    pub conclusions: Conclusions,
    /// The choices that were asked for.
    pub choices: Choices,
}

fn copies(alloc: Global, texts: &Items<Text>) -> Result<Items<Text>, AllocError>
    ensures { IfOk result (λ copies. copies ≡ texts.now) }
{
    let mut copies = Items::new(alloc);
    for text in texts.as_slice() {
        copies.push(text.clone()?)?;
    }
    Ok(copies)
}

fn copy_of(alloc: Global, rule: &Rule) -> Result<Rule, AllocError>
    ensures { IfOk result (λ copy. copy ≡ rule.now) }
{
    Ok(Rule {
        term: rule.term.clone()?,
        form: rule.form.clone()?,
        spelled: rule.spelled.clone()?,
        codes: copies(alloc, &rule.codes)?,
    })
}

impl Last {
    pub(crate) fn nothing() -> Last
        ensures { result ≡ nothing_last }
    {
        Last {
            document: None,
            rule: None,
            conclusions: Conclusions::nothing(),
            choices: Choices::nothing(),
        }
    }

    /// Returns what was found, and keeps nothing of it.
    pub(crate) fn take(&mut self) -> Last
        ensures taken { result ≡ self.old }
        ensures left { self.new ≡ nothing_last }
    {
        Last {
            document: self.document.take(),
            rule: self.rule.take(),
            conclusions: std::mem::replace(&mut self.conclusions, Conclusions::nothing()),
            choices: std::mem::replace(&mut self.choices, Choices::nothing()),
        }
    }

    /// What is still true after a change: documents are only added.
    pub(crate) fn after_change(self) -> Last
        ensures is { result ≡ last_after self }
        ensures are { (change : Change) (t : Tables) → AreLast self t
            → AreLast result (applied change t) }
    {
        Last {
            document: self.document,
            rule: None,
            conclusions: Conclusions::nothing(),
            choices: Choices::nothing(),
        }
    }

    /// The document with this number, if it is known.
    pub fn document_at(&self, number: u64) -> Option<(u32, Profile)>
        ensures is { result ≡ document_kept self.now.document number }
        ensures found { IfSome result (λ known. (t : Tables) → IsDocument self.now.document t
            → Some known ≡ option_map known_document (find (is_document number) t.document)) }
        ensures same { IfSome result (λ known. known.0 ≡ number) }
    {
        match self.document {
            Some((known, profile)) if u64::from(known) == number => Some((known, profile)),
            _ => None,
        }
    }

    /// Keeps a document that was looked up, if it was found.
    pub fn keep_document(&mut self, number: u64, found: Option<(u32, Profile)>)
        ensures kept { self.new ≡ record self.old { document = found } }
        ensures are { (t : Tables)
            → found ≡ option_map known_document (find (is_document number) t.document)
            → AreLast self.old t → AreLast self.new t }
    {
        self.document = found;
    }

    /// The rule for a term and a form, if it is known.
    pub fn rule_for(
        &self,
        alloc: Global,
        term: &str,
        form: &str,
    ) -> Result<Option<Rule>, AllocError>
        ensures is { IfOk result (λ found.
            found ≡ rule_kept self.now.rule term.now form.now) }
        ensures found { IfOk result (λ found. IfSome found (λ rule. (t : Tables)
            → IsRule self.now.rule t
            → Some rule ≡ rule_for (rules_found t) term.now form.now)) }
    {
        match &self.rule {
            Some(rule) if rule.term.as_str() == term && rule.form.as_str() == form => {
                Ok(Some(copy_of(alloc, rule)?))
            }
            _ => Ok(None),
        }
    }

    /// Keeps a rule that was looked up, if it was found.
    pub fn keep_rule(&mut self, alloc: Global, found: &Option<Rule>) -> Result<(), AllocError>
        ensures kept { OnOk result (self.new ≡ rule_noted found.now self.old) }
        ensures ok { OnOk result ((t : Tables) (term form : List ℕ)
            → found.now ≡ rule_for (rules_found t) term form
            → AreLast self.old t → AreLast self.new t) }
        ensures err { OnErr result (self.new ≡ self.old) }
    {
        if let Some(rule) = found {
            self.rule = Some(copy_of(alloc, rule)?);
        }
        Ok(())
    }
}
