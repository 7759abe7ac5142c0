//! What a document ships, the verification codes of its packages, and its findings.

pub use desk_bom::{CodeState, Contents, Elements, code_state, shipped, verification_code};
pub use desk_findings::{Finding, FindingKind, MissingField, findings};
