//! The rows of a desk, whoever wrote them, and the first condition that they don't meet.

pub use desk_audit::judge;
pub use desk_snapshot::{AuditFault, AuditReport, Snapshot};
