//! The text of a tree's document.

ghost use Rattle.std.specs.Prelude.{◌≡◌, ◌++◌, [], All, IfOk, IfErr, codes, decimal};
ghost use Rattle.std.specs.String.{string_bytes};
ghost use Rattle.desk_tree_infos.specs.Readers.{Reader, IsRightReader};
ghost use Rattle.desk_tagvalue.specs.Drafts.{draft_lines};
ghost use Rattle.desk_tagvalue.specs.Written.{Adds, Stands};
ghost use Rattle.desk_tree_document.specs.Gathering.{fault_line, gaps_in, gathering_text, is_document, IsGathering, IsReadBack, MayFail};

use crate::draft;
use crate::gaps::{Gaps, gaps_of};
use desk_tagvalue::{Draft, WriteFault, write};
use desk_tree_gather::{GatherFault, SourceFile};
use std::alloc::{AllocError, Global};
use thiserror::Error;

/// Why there is no answer for a tree.
#[derive(Clone, Copy, Debug, PartialEq, Eq, Error)]
pub enum TextFault {
    /// No memory was left.
    #[error(transparent)]
    Memory(#[from(alloc)] AllocError),
    /// A value of the document can't be read back from its field: a licence with blanks at its
    /// ends.
    #[error("a value that cannot stand in its field")]
    BadValue,
}

/// The answer for the document of a tree.
#[derive(Drop)]
pub enum Gathering {
    /// The text of the document, and for how many files it gives no licence or no notice.
    Document(String, Gaps),
    /// Why nothing is gathered.
    Fault(GatherFault),
}

// The line of a bad annotation.
fn annotation_line(alloc: Global, file: &str, index: usize, kind: u8) -> Result<String, AllocError>
    ensures { IfOk result (λ text. string_bytes text
        ≡ codes "fault: BadAnnotation " ++
        (file.now ++ (codes " " ++ (decimal index ++ (codes " " ++ (decimal kind ++ codes "\n")))))) }
{
    format!(in alloc; "fault: BadAnnotation {file} {index} {kind}\n")
}

// The line of a bad expression.
fn expression_line(alloc: Global, file: &str, line: u64) -> Result<String, AllocError>
    ensures { IfOk result (λ text. string_bytes text
        ≡ codes "fault: BadExpression " ++ (file.now ++ (codes " " ++ (decimal line ++ codes "\n")))) }
{
    format!(in alloc; "fault: BadExpression {file} {line}\n")
}

// The line of a fault.
fn fault_line(alloc: Global, fault: &GatherFault) -> Result<String, AllocError>
    ensures { IfOk result (λ text. string_bytes text ≡ fault_line fault.now) }
{
    match fault {
        GatherFault::BadToml(file) => {
            let file = file.as_str();
            format!(in alloc; "fault: BadToml {file}\n")
        }
        GatherFault::BadAnnotation(file, index, kind) => {
            annotation_line(alloc, file.as_str(), *index, kind.number())
        }
        GatherFault::BadExpression(file, line) => expression_line(alloc, file.as_str(), *line),
        GatherFault::BadPath => String::from_str(alloc, "fault: BadPath\n"),
        GatherFault::TwicePath => String::from_str(alloc, "fault: TwicePath\n"),
        GatherFault::TooManyFiles => String::from_str(alloc, "fault: TooManyFiles\n"),
        GatherFault::ExpressionTooLong => String::from_str(alloc, "fault: ExpressionTooLong\n"),
        GatherFault::Memory(error) => Err(*error),
    }
}

impl Gathering {
    /// Whether it is a document.
    pub fn is_document(&self) -> bool
        ensures { result ≡ is_document self.now }
    {
        match self {
            Gathering::Document(_, _) => true,
            Gathering::Fault(_) => false,
        }
    }

    /// For how many files the document gives no licence or no notice, if it is one.
    pub fn gaps(&self) -> Option<Gaps>
        ensures { result ≡ gaps_in self.now }
    {
        match self {
            Gathering::Document(_, gaps) => Some(*gaps),
            Gathering::Fault(_) => None,
        }
    }

    /// The text, each line ended.
    pub fn text(self, alloc: Global) -> Result<String, AllocError>
        ensures { IfOk result (λ text. string_bytes text ≡ gathering_text self) }
    {
        match self {
            Gathering::Document(text, _) => Ok(text),
            Gathering::Fault(fault) => fault_line(alloc, &fault),
        }
    }
}

// The text of a draft.
fn text_of(alloc: Global, draft: &Draft) -> Result<String, TextFault>
    ensures ok { IfOk result (λ text. Adds [] (draft_lines draft.now) (string_bytes text)) }
    ensures read { IfOk result (λ text. IsReadBack draft.now (string_bytes text)) }
    ensures err { IfErr result (λ fault. (fault ≡ TextFault.BadValue)
        → All Stands (draft_lines draft.now) → ⊥) }
{
    match write(alloc, draft) {
        Ok(text) => Ok(text),
        Err(WriteFault::BadValue) => Err(TextFault::BadValue),
        Err(WriteFault::Memory) => Err(TextFault::Memory(AllocError)),
    }
}

/// The answer for the document of a tree of files, with a name, a namespace and a time.
///
/// For each right reader it is that of `IsGathering`. `BadValue` is returned only if the draft has
/// a value that can't be in its field.
pub fn document_of(
    alloc: Global,
    files: Vec<SourceFile>,
    name: &str,
    namespace: &str,
    created: &str,
) -> Result<Gathering, TextFault>
    ensures ok { (r : Reader) → IsRightReader r
        → IfOk result (IsGathering r files.items
        (record { name = name.now; namespace = namespace.now; created = created.now })) }
    ensures err { (r : Reader) → IsRightReader r
        → IfErr result (MayFail r files.items
        (record { name = name.now; namespace = namespace.now; created = created.now })) }
{
    match draft(alloc, files, name, namespace, created) {
        Ok(draft) => {
            let gaps = gaps_of(&draft);
            Ok(Gathering::Document(text_of(alloc, &draft)?, gaps))
        }
        Err(GatherFault::Memory(error)) => Err(TextFault::Memory(error)),
        Err(fault) => Ok(Gathering::Fault(fault)),
    }
}
