//! The values of refusals as JSON.

ghost use Rattle.std.specs.Prelude.{◌≡◌, ◌∷◌, [], IfOk};
ghost use Rattle.serde_json.specs.Data.{string};
ghost use Rattle.serde_json.specs.View.{view};
ghost use Rattle.desk_model.specs.Names.{part_name};
ghost use Rattle.desk_model.specs.FaultNumbers.{expression_fault_number, document_fault_number, catalogue_fault_number};
ghost use Rattle.desk_json.specs.Parts.{whole, list};
ghost use Rattle.desk_json.specs.Refusals.{expression_fault_place, document_fault_values, catalogue_fault_values, refusal_values};

use crate::cells::{Cell, list};
use desk_model::{CatalogueFault, CataloguePart, DocumentFault, ExpressionFault, Refusal};
use serde_json::Value;
use std::alloc::{AllocError, Global};

fn nothing(alloc: Global) -> Result<Value, AllocError>
    ensures { IfOk result (λ v. view v ≡ list []) }
{
    list(alloc, &[])
}

fn number(alloc: Global, number: u64) -> Result<Value, AllocError>
    ensures { IfOk result (λ v. view v ≡ list (whole number ∷ [])) }
{
    list(alloc, &[Cell::Number(number)])
}

fn text(alloc: Global, text: &str) -> Result<Value, AllocError>
    ensures { IfOk result (λ v. view v ≡ list (string text.now ∷ [])) }
{
    list(alloc, &[Cell::Text(text)])
}

fn number_and_text(alloc: Global, number: u32, text: &str) -> Result<Value, AllocError>
    ensures { IfOk result (λ v. view v ≡ list (whole number ∷ string text.now ∷ [])) }
{
    list(alloc, &[Cell::Number(u64::from(number)), Cell::Text(text)])
}

fn numbers(alloc: Global, first: u8, second: u64) -> Result<Value, AllocError>
    ensures { IfOk result (λ v. view v ≡ list (whole first ∷ whole second ∷ [])) }
{
    list(
        alloc,
        &[Cell::Number(u64::from(first)), Cell::Number(second)],
    )
}

/// The byte at which a text stops.
fn place_of(fault: &ExpressionFault) -> usize
    ensures { result ≡ expression_fault_place fault.now }
{
    match *fault {
        ExpressionFault::Empty(place)
        | ExpressionFault::BadToken(place)
        | ExpressionFault::Unexpected(place)
        | ExpressionFault::Unclosed(place)
        | ExpressionFault::TooDeep(place)
        | ExpressionFault::TooLong(place)
        | ExpressionFault::TooManyTerms(place) => place,
    }
}

fn expression_fault(alloc: Global, fault: &ExpressionFault) -> Result<Value, AllocError>
    ensures { IfOk result (λ v. view v ≡ list
        (whole (expression_fault_number fault.now) ∷ whole (expression_fault_place fault.now)
        ∷ [])) }
{
    numbers(alloc, fault.number(), place_of(fault) as u64)
}

fn number_line_and_tag(alloc: Global, number: u8, line: u64, tag: &str) -> Result<Value, AllocError>
    ensures { IfOk result (λ v. view v ≡ list (whole number ∷ whole line ∷ string tag.now ∷ [])) }
{
    list(
        alloc,
        &[
            Cell::Number(u64::from(number)),
            Cell::Number(line),
            Cell::Text(tag),
        ],
    )
}

fn document_fault(alloc: Global, fault: &DocumentFault) -> Result<Value, AllocError>
    ensures { IfOk result (λ v. view v ≡ list
        (whole (document_fault_number fault.now) ∷ document_fault_values fault.now)) }
{
    let number = fault.number();
    match fault {
        DocumentFault::NotUtf8 | DocumentFault::TooLarge => numbers(alloc, number, 0),
        DocumentFault::Missing { line, tag } | DocumentFault::Repeated { line, tag } => {
            number_line_and_tag(alloc, number, *line, tag.as_str())
        }
        DocumentFault::NoColon(line)
        | DocumentFault::OpenText(line)
        | DocumentFault::AfterText(line)
        | DocumentFault::BadVersion(line)
        | DocumentFault::BadId(line)
        | DocumentFault::DuplicateId(line)
        | DocumentFault::BadRelationship(line)
        | DocumentFault::TooManyElements(line) => numbers(alloc, number, *line),
    }
}

fn number_part_and_index(
    alloc: Global,
    number: u8,
    part: &CataloguePart,
    index: usize,
) -> Result<Value, AllocError>
    ensures { IfOk result (λ v. view v
        ≡ list (whole number ∷ string (part_name part.now) ∷ whole index ∷ [])) }
{
    let cells = [
        Cell::Number(u64::from(number)),
        Cell::Text(part.name()),
        Cell::Number(index as u64),
    ];
    list(alloc, &cells)
}

fn catalogue_fault(alloc: Global, fault: &CatalogueFault) -> Result<Value, AllocError>
    ensures { IfOk result (λ v. view v ≡ list
        (whole (catalogue_fault_number fault.now) ∷ catalogue_fault_values fault.now)) }
{
    let kind = fault.number();
    match fault {
        CatalogueFault::NotToml | CatalogueFault::TooLarge => number(alloc, u64::from(kind)),
        CatalogueFault::Missing(part, index)
        | CatalogueFault::BadKind(part, index)
        | CatalogueFault::BadTerm(part, index)
        | CatalogueFault::UnknownForm(part, index)
        | CatalogueFault::UnknownDuty(part, index)
        | CatalogueFault::Twice(part, index) => number_part_and_index(alloc, kind, part, *index),
    }
}

fn document_package_and_term<'a>(
    alloc: Global,
    document: u32,
    package_id: &'a str,
    term: &'a str,
) -> Result<Value, AllocError>
    ensures { IfOk result (λ v. view v
        ≡ list (whole document ∷ string package_id.now ∷ string term.now ∷ [])) }
{
    list(
        alloc,
        &[
            Cell::Number(u64::from(document)),
            Cell::Text(package_id),
            Cell::Text(term),
        ],
    )
}

/// The values of a refusal, in order.
pub(crate) fn refusal_values(alloc: Global, refusal: &Refusal) -> Result<Value, AllocError>
    ensures { IfOk result (λ v. view v ≡ list (refusal_values refusal.now)) }
{
    match refusal {
        Refusal::BadCatalogue(fault) => catalogue_fault(alloc, fault),
        Refusal::BadDocument(fault) => document_fault(alloc, fault),
        Refusal::NamespaceTaken { document } => number(alloc, u64::from(*document)),
        Refusal::BadExpression(fault) => expression_fault(alloc, fault),
        Refusal::Chosen { release } => text(alloc, release.as_str()),
        Refusal::BadTerm(index) => number(alloc, *index as u64),
        Refusal::ReleaseState(state) => text(alloc, state.name()),
        Refusal::NoConclusion {
            document,
            package_id,
        }
        | Refusal::NoChoice {
            document,
            package_id,
        } => number_and_text(alloc, *document, package_id.as_str()),
        Refusal::NotMinimal { term } => text(alloc, term.as_str()),
        Refusal::NotAdopted {
            document,
            reference,
        } => number_and_text(alloc, *document, reference.as_str()),
        Refusal::NoRule {
            document,
            package_id,
            term,
        } => document_package_and_term(alloc, *document, package_id.as_str(), term.as_str()),
        Refusal::DutyState(state) => text(alloc, state.name()),
        Refusal::Full(limit) => text(alloc, limit.name()),
        _ => nothing(alloc),
    }
}
