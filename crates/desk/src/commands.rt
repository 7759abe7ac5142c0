//! Commands, questions and their answers; a desk in memory, and `run`.

pub use desk_core::{Desk, MemDesk, TableDesk, run, run_in_memory};
pub use desk_model::{
    Answer, Bill, BillLine, BillText, ChangeRow, Command, DocumentLine, DutyLine, DutyState, Fault,
    OpenDuty, Outcome, PackageLine, Query, Refusal, ReleaseLine, ReleaseState, StoreFault, TextOf,
    Totals, Word,
};
pub use desk_texts::Standard;
