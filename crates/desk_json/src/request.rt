//! What a client asks for.

use desk_model::{Command, Query};

/// What a text asks the desk to do.
#[derive(Drop)]
pub enum Request {
    /// The command is to be applied.
    Act(Command),
    /// The query is to be answered.
    Ask(Query),
    /// The text isn't a request.
    BadCommand,
}
