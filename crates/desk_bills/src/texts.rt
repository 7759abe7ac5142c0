//! The texts that go with a frozen release: those that its terms name, in the order of first use,
//! each once.

ghost use Rattle.std.specs.Prelude.{◌≡◌, ◌++◌, [], ℕ, List, Option, None, IfOk, IfErr, OnOk, filter, map};
ghost use Rattle.std.specs.List.{flat_map};
ghost use Rattle.std.specs.Option.{option_map_or};
ghost use Rattle.std.specs.Ordering.{nat_cmp, on, then_cmp, as_partial_cmp};
ghost use Rattle.std.specs.Cmp.{partial_order_from_own_ties};
ghost use Rattle.std.specs.Cmp.Rules.{comparing};
ghost use Rattle.std.specs.Cmp.Lexicographic.{slice_cmp};
ghost use Rattle.std.proofs.Common.{rules};
ghost use Rattle.desk_model.specs.Readings.{Readings};
ghost use Rattle.desk_model.specs.Bills.{bill_text, first_uses, licence_bill, revision_text, texts_named};
ghost use Rattle.desk_model.specs.Faults.{MayFail};
ghost use Rattle.desk_access.specs.Seen.{Looked, OfRows};
ghost use Rattle.desk_bills.specs.Billing.{Adds, AreLeft, AreNamed, is_licence, is_of, licence_found, licence_ids, main_text, text_key};

use crate::frozen::ByPackage;
use desk_access::store::Store;
use desk_access::texts::Texts;
use desk_base::{Items, Text};
use desk_model::{BillText, Fault, FrozenRow, LicenceText, TextOf};
use std::alloc::{AllocError, Global};
use std::cmp::Ordering;
use std::collections::BTreeSet;
use std::vec::IntoIter;

/// The text of a term's reference, or else of its licence.
fn main_text<T: Texts>(
    alloc: Global,
    texts: &T,
    document: u32,
    term: &Text,
) -> Result<TextOf, AllocError>
    ensures { (w : Readings) → T.are_right w
        → IfOk result (λ text. text ≡ main_text w document term.now) }
{
    match texts.reference(alloc, term.as_str())? {
        Some(reference) => Ok(TextOf::Reference {
            document,
            reference,
        }),
        None => Ok(TextOf::Licence {
            id: texts.licence_id(alloc, term.as_str())?,
        }),
    }
}

/// Whether a text is that of a licence, and therefore the same in each document.
fn is_licence(text: &TextOf) -> bool
    ensures { result ≡ is_licence text.now }
{
    matches!(text, TextOf::Licence { .. })
}

/// Adds the texts that a term names, and returns whether it names the same in each document.
fn add_texts<T: Texts>(
    alloc: Global,
    texts: &T,
    document: u32,
    term: &Text,
    named: &mut Vec<TextOf>,
) -> Result<bool, AllocError>
    ensures named { (w : Readings) → T.are_right w
        → OnOk result (named.new.items ≡ named.old.items ++ texts_named w document term.now) }
    ensures anywhere { (w : Readings) → T.are_right w → IfOk result (λ is_anywhere.
        is_anywhere ≡ is_licence (main_text w document term.now)) }
{
    let main = main_text(alloc, texts, document, term)?;
    let is_anywhere = is_licence(&main);
    named.push(main)?;
    if let Some(id) = texts.exception(alloc, term.as_str())? {
        named.push(TextOf::Licence { id })?;
    }
    Ok(is_anywhere)
}

/// The texts that terms named.
#[derive(Drop)]
pub(crate) struct Named<'a> {
    /// The texts in their order; for a term that was met, only those of its first use.
    pub(crate) texts: Vec<TextOf>,
    /// The terms that were met and name the same texts in each document.
    met: BTreeSet<&'a str>,
}

impl<'a> Named<'a> {
    pub(crate) fn new(alloc: Global) -> Named<'a>
        ensures { (w : Readings) → AreNamed w [] result }
    {
        Named {
            texts: Vec::new(alloc),
            met: BTreeSet::new(alloc),
        }
    }
}

/// Adds the texts that a term names, unless it was met before and named the same ones: most
/// packages have one of few terms.
pub(crate) fn add_term<'a, T: Texts>(
    alloc: Global,
    texts: &T,
    document: u32,
    term: &'a Text,
    named: &mut Named<'a>,
) -> Result<(), AllocError>
    ensures { (w : Readings) → T.are_right w
        → OnOk result (Adds w (texts_named w document term.now) named.old named.new) }
{
    let word = term.as_str();
    if named.met.contains(word) {
        return Ok(());
    }
    let is_anywhere = add_texts(alloc, texts, document, term, &mut named.texts)?;
    if is_anywhere {
        named.met.insert(word)?;
    }
    Ok(())
}

/// Adds the texts named by the rows that are terms of a package.
pub(crate) fn add_terms<'a, T: Texts>(
    alloc: Global,
    texts: &T,
    rows: &'a [FrozenRow],
    key: &ByPackage<'_>,
    named: &mut Named<'a>,
) -> Result<(), AllocError>
    ensures { (w : Readings) → T.are_right w → OnOk result (Adds w
        (flat_map (λ row. texts_named w row.document row.term)
        (filter (is_of key.now) rows.now)) named.old named.new) }
{
    for row in rows {
        if key.has(row) {
            add_term(alloc, texts, row.document, &row.term, named)?;
        }
    }
    Ok(())
}

/// What identifies a text: its name, and 0 for an id, or for a reference one more than the number
/// of its document.
#[derive(Drop, PartialEq, Eq)]
pub(crate) struct TextKey {
    document: u64,
    name: Text,
}

impl Ord for TextKey {
    ghost cmp = { then_cmp (on (λ k. k.document) nat_cmp) (on (λ k. k.name) (slice_cmp nat_cmp)) };

    ghost total = { Prim.search (comparing, rules) };

    ghost matches_partial_cmp = { Prim.search (comparing, rules) };

    ghost matches_eq = { Prim.search (comparing, rules) };

    fn cmp(&self, other: &TextKey) -> Ordering {
        self.document
            .cmp(&other.document)
            .then(self.name.as_str().cmp(other.name.as_str()))
    }
}

impl PartialOrd for TextKey {
    ghost partial_cmp = { as_partial_cmp
        (then_cmp (on (λ k. k.document) nat_cmp) (on (λ k. k.name) (slice_cmp nat_cmp))) };

    ghost laws = { partial_order_from_own_ties (Prim.search (comparing, rules))
        (Prim.search (comparing, rules)) };

    fn partial_cmp(&self, other: &TextKey) -> Option<Ordering> {
        Some(self.cmp(other))
    }
}

fn text_key(text: &TextOf) -> Result<TextKey, AllocError>
    ensures { IfOk result (λ key. key ≡ text_key text.now) }
{
    match text {
        TextOf::Licence { id } => Ok(TextKey {
            document: 0,
            name: id.clone()?,
        }),
        TextOf::Reference {
            document,
            reference,
        } => Ok(TextKey {
            document: u64::from(*document) + 1,
            name: reference.clone()?,
        }),
    }
}

/// The texts in the order of first use, each once.
pub(crate) fn first_uses(alloc: Global, named: Vec<TextOf>) -> Result<Vec<TextOf>, AllocError>
    ensures { IfOk result (λ uses. uses.items ≡ first_uses named.items) }
{
    let mut uses = Vec::new(alloc);
    let mut seen = BTreeSet::new(alloc);
    for text in named {
        let key = text_key(&text)?;
        if seen.insert(key)? {
            uses.push(text)?;
        }
    }
    Ok(uses)
}

/// The ids of licences and exceptions among texts.
fn licence_ids(alloc: Global, uses: &[TextOf]) -> Result<Vec<&str>, AllocError>
    ensures { IfOk result (λ ids. map (λ id. id.now) ids.items ≡ flat_map licence_ids uses.now) }
{
    let mut ids = Vec::new(alloc);
    for text in uses {
        if let TextOf::Licence { id } = text {
            ids.push(id.as_str())?;
        }
    }
    Ok(ids)
}

/// A place without a text for each of these.
fn no_texts(alloc: Global, ids: &[&str]) -> Result<Items<Option<LicenceText>>, AllocError>
    ensures { IfOk result (λ found. found ≡ map (λ _. None) ids.now) }
{
    let mut found = Items::new(alloc);
    for _ in ids {
        found.push(None)?;
    }
    Ok(found)
}

/// The texts of these ids in a revision of the catalogue, a place for each.
fn licences_found<T: Texts, S: Store>(
    alloc: Global,
    texts: &T,
    store: &mut S,
    revision: u64,
    ids: &[&str],
) -> Result<Items<Option<LicenceText>>, Fault>
    ensures found { (w : Readings) → T.are_right w → IfOk result (λ found. OfRows (λ t.
        found ≡ map (λ id. licence_found w (revision_text t.catalogue revision) id.now) ids.now)
        (S.seen store.old) (S.seen store.new)) }
    ensures kept { Looked (S.seen store.old) (S.seen store.new) result }
    ensures fault { IfErr result (MayFail S.tells) }
{
    match store.catalogue_text(revision)? {
        Some(text) => Ok(texts.licence_texts(alloc, text.as_str(), ids)?),
        None => Ok(no_texts(alloc, ids)?),
    }
}

/// The texts of the licences and exceptions among these, in their order.
pub(crate) fn licence_texts<T: Texts, S: Store>(
    alloc: Global,
    texts: &T,
    store: &mut S,
    revision: u64,
    uses: &[TextOf],
) -> Result<Items<Option<LicenceText>>, Fault>
    ensures found { (w : Readings) → T.are_right w → IfOk result (λ found. OfRows (λ t.
        found ≡ map (licence_found w (revision_text t.catalogue revision))
        (flat_map licence_ids uses.now))
        (S.seen store.old) (S.seen store.new)) }
    ensures kept { Looked (S.seen store.old) (S.seen store.new) result }
    ensures fault { IfErr result (MayFail S.tells) }
{
    let ids = licence_ids(alloc, uses)?;
    licences_found(alloc, texts, store, revision, ids.as_slice())
}

fn licence_bill(id: Text, found: Option<LicenceText>) -> BillText
    ensures { result ≡ licence_bill id found }
{
    match found {
        Some(text) => BillText {
            title: text.title,
            body: Some(text.body),
        },
        None => BillText {
            title: id,
            body: None,
        },
    }
}

/// A text with its body: that of a licence or an exception is the next of those that were found.
fn bill_text<S: Store>(
    store: &mut S,
    licences: &mut IntoIter<Option<LicenceText>>,
    text: TextOf,
) -> Result<BillText, Fault>
    ensures found { (w : Readings) (catalogue : Option (List ℕ)) (ids : List (List ℕ))
        → AreLeft w catalogue (licence_ids text ++ ids) licences.old
        → IfOk result (λ found. AreLeft w catalogue ids licences.new
        × OfRows (λ t. found ≡ bill_text w catalogue t.extracted text)
        (S.seen store.old) (S.seen store.new)) }
    ensures kept { Looked (S.seen store.old) (S.seen store.new) result }
    ensures fault { IfErr result (MayFail S.tells) }
{
    match text {
        TextOf::Licence { id } => {
            let found = licences.next().flatten();
            Ok(licence_bill(id, found))
        }
        TextOf::Reference {
            document,
            reference,
        } => {
            let body = store.extracted_text(document, reference.as_str())?;
            Ok(BillText {
                title: reference,
                body,
            })
        }
    }
}

#[tactic(auto, using(desk_access::proofs::Chains::same_then_kept, desk_access::proofs::Chains::same_then_same))]
fn bill_texts<S: Store>(
    alloc: Global,
    store: &mut S,
    licences: Items<Option<LicenceText>>,
    uses: Vec<TextOf>,
) -> Result<Items<BillText>, Fault>
    ensures found { (w : Readings) (catalogue : Option (List ℕ))
        → licences ≡ map (licence_found w catalogue) (flat_map licence_ids uses.items)
        → IfOk result (λ found.
        OfRows (λ t. found ≡ map (bill_text w catalogue t.extracted) uses.items)
        (S.seen store.old) (S.seen store.new)) }
    ensures kept { Looked (S.seen store.old) (S.seen store.new) result }
    ensures fault { IfErr result (MayFail S.tells) }
{
    let mut bodies = Items::new(alloc);
    let mut licences = licences.into_vec().into_iter();
    for text in uses {
        let body = bill_text(store, &mut licences, text)?;
        bodies.push(body)?;
    }
    Ok(bodies)
}

/// The texts themselves, from a revision of the catalogue.
pub(crate) fn bill_texts_of<T: Texts, S: Store>(
    alloc: Global,
    texts: &T,
    store: &mut S,
    revision: u64,
    uses: Vec<TextOf>,
) -> Result<Items<BillText>, Fault>
    ensures found { (w : Readings) → T.are_right w → IfOk result (λ found.
        OfRows (λ t. found ≡ map (bill_text w (revision_text t.catalogue revision) t.extracted)
        uses.items)
        (S.seen store.old) (S.seen store.new)) }
    ensures kept { Looked (S.seen store.old) (S.seen store.new) result }
    ensures fault { IfErr result (MayFail S.tells) }
{
    let licences = licence_texts(alloc, texts, store, revision, uses.as_slice())?;
    bill_texts(alloc, store, licences, uses)
}
