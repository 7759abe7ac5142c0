//! The desk's reader of texts.

ghost use Rattle.desk_texts.specs.Expressions.{IsExpression};
ghost use Rattle.desk_texts.specs.Right.{AreRight};

use crate::catalogue::read_catalogue;
use crate::choice::verdict;
use crate::document::read_document;
use crate::expression::{expression_fault, read_expression};
use crate::findings::read_findings;
use crate::licences::licence_texts;
use crate::listing::{alternatives, cheapest, terms};
use crate::term::{
    adopted_as, exception_of, is_licence, licence_id_of, printed_term, reference_of,
};
use desk_access::texts::Texts;
use desk_base::{Items, Text, TextList};
use desk_expr::Expr;
use desk_model::{
    Catalogue, CatalogueFault, Cheapest, Document, DocumentFault, ExpressionFault, Finding,
    LicenceText, ListFault, Profile, Verdict,
};
use std::alloc::{AllocError, Global};

/// Reads texts as their standards say.
#[derive(Clone, Copy)]
pub struct Standard;

impl Texts for Standard {
    type Expression = Expr;

    ghost are_right = { AreRight };

    ghost is_of = { IsExpression };

    fn catalogue(
        &self,
        alloc: Global,
        text: &str,
    ) -> Result<Result<Catalogue, CatalogueFault>, AllocError> {
        read_catalogue(alloc, text)
    }

    fn document(
        &self,
        alloc: Global,
        bytes: &[u8],
    ) -> Result<Result<Document, DocumentFault>, AllocError> {
        read_document(alloc, bytes)
    }

    fn term(&self, alloc: Global, text: &str) -> Result<Option<Text>, AllocError> {
        printed_term(alloc, text)
    }

    fn reference(&self, alloc: Global, term: &str) -> Result<Option<Text>, AllocError> {
        reference_of(alloc, term)
    }

    fn is_licence(&self, term: &str) -> bool {
        is_licence(term)
    }

    fn adopted_as(&self, alloc: Global, licence: &str, term: &str) -> Result<Text, AllocError> {
        adopted_as(alloc, licence, term)
    }

    fn licence_id(&self, alloc: Global, term: &str) -> Result<Text, AllocError> {
        licence_id_of(alloc, term)
    }

    fn exception(&self, alloc: Global, term: &str) -> Result<Option<Text>, AllocError> {
        exception_of(alloc, term)
    }

    fn licence_texts(
        &self,
        alloc: Global,
        text: &str,
        ids: &[&str],
    ) -> Result<Items<Option<LicenceText>>, AllocError> {
        licence_texts(alloc, text, ids)
    }

    fn expression(
        &self,
        alloc: Global,
        profile: Profile,
        text: &str,
    ) -> Result<Option<Expr>, AllocError> {
        read_expression(alloc, text, profile)
    }

    fn expression_fault(
        &self,
        alloc: Global,
        profile: Profile,
        text: &str,
    ) -> Result<Option<ExpressionFault>, AllocError> {
        expression_fault(alloc, text, profile)
    }

    fn verdict(
        &self,
        alloc: Global,
        expression: &Expr,
        terms: &TextList,
    ) -> Result<Verdict, AllocError> {
        verdict(alloc, expression, terms)
    }

    fn alternatives(
        &self,
        alloc: Global,
        expression: &Expr,
    ) -> Result<Result<Items<Items<Text>>, ListFault>, AllocError> {
        alternatives(alloc, expression)
    }

    fn terms(&self, alloc: Global, expression: &Expr) -> Result<Items<Text>, AllocError> {
        terms(alloc, expression)
    }

    fn cheapest(
        &self,
        alloc: Global,
        expression: &Expr,
        costs: &[Option<u64>],
    ) -> Result<Result<Option<Cheapest>, ListFault>, AllocError> {
        cheapest(alloc, expression, costs)
    }

    fn findings(
        &self,
        alloc: Global,
        profile: Profile,
        bytes: &[u8],
    ) -> Result<Items<Finding>, AllocError> {
        read_findings(alloc, bytes, profile)
    }
}
