//! What the bytes of a document say about it.

ghost use Rattle.std.specs.Prelude.{◌≡◌, ℕ, List, Option, IfOk, length};
ghost use Rattle.desk_base.specs.declared.profile.Profile.{Profile};
ghost use Rattle.desk_expr.specs.Tree.{Tree};
ghost use Rattle.desk_tagvalue.specs.Documents.{document_text};
ghost use Rattle.desk_lists.specs.Documents.{AreReadings, CountsFindings, IsSaid, SaysOf};

use desk_base::{Profile, Text};
use desk_findings::findings_in;
use desk_tagvalue::{DocFault, Document, read};
use std::alloc::{AllocError, Global};

/// What the bytes of a document say: its name, and how many findings it has. Bytes that aren't a
/// document say nothing.
#[derive(Drop)]
pub(crate) struct Said {
    pub name: Text,
    pub findings: Option<u64>,
}

// How many findings a document has.
fn findings_count(
    alloc: Global,
    document: &Document<'_>,
    profile: Profile,
) -> Result<u64, AllocError>
    ensures { (reads : Profile → List ℕ → Option Tree) → AreReadings reads
        → IfOk result (CountsFindings reads profile (document_text document.now)) }
{
    Ok(findings_in(alloc, document, profile)?.len() as u64)
}

// What a document says.
fn said_of(alloc: Global, document: &Document<'_>, profile: Profile) -> Result<Said, AllocError>
    ensures { (reads : Profile → List ℕ → Option Tree) → AreReadings reads
        → IfOk result (SaysOf reads profile (document_text document.now)) }
{
    let name = Text::of(alloc, document.name)?;
    let findings = Some(findings_count(alloc, document, profile)?);
    Ok(Said { name, findings })
}

/// What bytes say, their licence expressions read by the profile.
pub(crate) fn said_in(alloc: Global, bytes: &[u8], profile: Profile) -> Result<Said, AllocError>
    ensures { (reads : Profile → List ℕ → Option Tree) → AreReadings reads
        → IfOk result (IsSaid reads profile bytes.now) }
{
    match read(alloc, bytes) {
        Ok(document) => said_of(alloc, &document, profile),
        Err(DocFault::Memory) => Err(AllocError),
        Err(_) => Ok(Said {
            name: Text::of(alloc, "")?,
            findings: None,
        }),
    }
}
