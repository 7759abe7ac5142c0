//! What reads the texts that a desk is given.

ghost use Rattle.std.specs.Prelude.{◌≡◌, ℕ, List, Option, IfOk, map};
ghost use Rattle.desk_model.specs.Listings.{IsCost};
ghost use Rattle.desk_model.specs.Readings.{Readings};
ghost use Rattle.desk_access.specs.Reading.{TellsExpression};
ghost use Rattle.desk_base.specs.declared.profile.Profile.{Profile};

use desk_base::{Items, Text, TextList};
use desk_model::{
    Catalogue, CatalogueFault, Cheapest, Document, DocumentFault, ExpressionFault, Finding,
    LicenceText, ListFault, Profile, Verdict,
};
use std::alloc::{AllocError, Global};

/// A reader of texts. Its own definitions say which readings are right, and it returns what each of
/// these gives. A licence expression is read once and then asked about.
pub trait Texts {
    /// A licence expression that was read.
    type Expression: Drop;

    /// The readings that say of each text what it says.
    ghost are_right: { Readings → Type 0 };

    /// The expression is what the text says, with operators written by the profile.
    ghost is_of: { Profile → List ℕ → Self.Expression → Type 0 };

    /// The catalogue that a text is, or its fault.
    fn catalogue(
        &self,
        alloc: Global,
        text: &str,
    ) -> Result<Result<Catalogue, CatalogueFault>, AllocError>
        ensures { (w : Readings) → are_right w
            → IfOk result (λ read. read ≡ w.catalogue text.now) };

    /// The document that bytes spell, or their fault.
    fn document(
        &self,
        alloc: Global,
        bytes: &[u8],
    ) -> Result<Result<Document, DocumentFault>, AllocError>
        ensures { (w : Readings) → are_right w
            → IfOk result (λ read. read ≡ w.document bytes.now) };

    /// The licence term that a text spells, printed.
    fn term(&self, alloc: Global, text: &str) -> Result<Option<Text>, AllocError>
        ensures { (w : Readings) → are_right w → IfOk result (λ term. term ≡ w.term text.now) };

    /// The reference that a printed term names, without its exception.
    fn reference(&self, alloc: Global, term: &str) -> Result<Option<Text>, AllocError>
        ensures { (w : Readings) → are_right w
            → IfOk result (λ reference. reference ≡ w.reference term.now) };

    /// Whether a printed term is only a licence: no reference, no plus, no exception.
    fn is_licence(&self, term: &str) -> bool
        ensures { (w : Readings) → are_right w → result ≡ w.is_licence term.now };

    /// A licence, with the exception of a printed term.
    fn adopted_as(&self, alloc: Global, licence: &str, term: &str) -> Result<Text, AllocError>
        ensures { (w : Readings) → are_right w → IfOk result (λ adopted.
            adopted ≡ w.adopted_as licence.now term.now) };

    /// The id of the licence that a printed term names, without its plus and exception, if it names
    /// no reference.
    fn licence_id(&self, alloc: Global, term: &str) -> Result<Text, AllocError>
        ensures { (w : Readings) → are_right w → IfOk result (λ id. id ≡ w.licence_id term.now) };

    /// The exception of a printed term, if it has one.
    fn exception(&self, alloc: Global, term: &str) -> Result<Option<Text>, AllocError>
        ensures { (w : Readings) → are_right w
            → IfOk result (λ exception. exception ≡ w.exception term.now) };

    /// The texts of licences and exceptions in the catalogue that a text is: an entry for each id,
    /// `None` if the catalogue has no text for it or the text isn't a catalogue.
    fn licence_texts(
        &self,
        alloc: Global,
        text: &str,
        ids: &[&str],
    ) -> Result<Items<Option<LicenceText>>, AllocError>
        ensures { (w : Readings) → are_right w → IfOk result (λ found.
            found ≡ map (λ id. w.licence_text text.now id.now) ids.now) };

    /// The licence expression that a text is, if it is one.
    fn expression(
        &self,
        alloc: Global,
        profile: Profile,
        text: &str,
    ) -> Result<Option<Self::Expression>, AllocError>
        ensures { (w : Readings) → are_right w
            → IfOk result (TellsExpression is_of w profile text.now) };

    /// Why a text isn't a licence expression, if it isn't one.
    fn expression_fault(
        &self,
        alloc: Global,
        profile: Profile,
        text: &str,
    ) -> Result<Option<ExpressionFault>, AllocError>
        ensures { (w : Readings) → are_right w → IfOk result (λ fault.
            fault ≡ w.expression_fault profile text.now) };

    /// How the terms, as printed, relate to an expression.
    fn verdict(
        &self,
        alloc: Global,
        expression: &Self::Expression,
        terms: &TextList,
    ) -> Result<Verdict, AllocError>
        ensures { (w : Readings) → are_right w → (profile : Profile) (text : List ℕ)
            → is_of profile text expression.now
            → IfOk result (λ verdict. verdict ≡ w.verdict profile text terms.now) };

    /// The minimal sets of terms, as printed, under which an expression is true, or why they aren't
    /// listed.
    fn alternatives(
        &self,
        alloc: Global,
        expression: &Self::Expression,
    ) -> Result<Result<Items<Items<Text>>, ListFault>, AllocError>
        ensures { (w : Readings) → are_right w → (profile : Profile) (text : List ℕ)
            → is_of profile text expression.now
            → IfOk result (λ sets. sets ≡ w.alternatives profile text) };

    /// The distinct terms of an expression, printed, in order.
    fn terms(&self, alloc: Global, expression: &Self::Expression) -> Result<Items<Text>, AllocError>
        ensures { (w : Readings) → are_right w → (profile : Profile) (text : List ℕ)
            → is_of profile text expression.now
            → IfOk result (λ terms. terms ≡ w.terms profile text) };

    /// The cheapest set of terms, as printed, under which an expression is true. The costs are
    /// those of its distinct terms in order, each at most 1,000,000.
    fn cheapest(
        &self,
        alloc: Global,
        expression: &Self::Expression,
        costs: &[Option<u64>],
    ) -> Result<Result<Option<Cheapest>, ListFault>, AllocError>
        ensures { (w : Readings) → are_right w → (profile : Profile) (text : List ℕ)
            → is_of profile text expression.now → (cost : List ℕ → Option ℕ) → IsCost cost
            → costs.now ≡ map cost (w.terms profile text)
            → IfOk result (λ found. found ≡ w.cheapest profile text cost) };

    /// The findings of the document that bytes spell.
    fn findings(
        &self,
        alloc: Global,
        profile: Profile,
        bytes: &[u8],
    ) -> Result<Items<Finding>, AllocError>
        ensures { (w : Readings) → are_right w
            → IfOk result (λ rows. rows ≡ w.findings profile bytes.now) };
}
