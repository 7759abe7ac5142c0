//! The findings of a document.

ghost use Rattle.std.specs.Prelude.{◌≡◌, IfOk, Result};
ghost use Rattle.desk_fields.specs.declared.fault.DocFault.{DocFault};
ghost use Rattle.desk_tagvalue.specs.Documents.{Spells};
ghost use Rattle.desk_tagvalue.specs.Parts.{DocumentText};
ghost use Rattle.desk_texts.specs.Findings.{Finds};

use desk_base::{Items, Profile};
use desk_findings::findings_in;
use desk_model::Finding;
use desk_tagvalue::{DocFault, read};
use std::alloc::{AllocError, Global};

/// The findings of the document that bytes spell. Bytes that spell no document have none.
pub(crate) fn read_findings(
    alloc: Global,
    bytes: &[u8],
    profile: Profile,
) -> Result<Items<Finding>, AllocError>
    ensures { IfOk result (λ found. (read : Result DocumentText DocFault) × Spells bytes.now read
        × Finds profile read found) }
{
    match read(alloc, bytes) {
        Ok(document) => Ok(Items::from_vec(findings_in(alloc, &document, profile)?)),
        Err(DocFault::Memory) => Err(AllocError),
        Err(_) => Ok(Items::new(alloc)),
    }
}
