//! Scripts: requests in, replies out, a line each.
//!
//! `script` reads a stream of lines, each a request to the desk as JSON, and writes one reply line
//! for each. A line ends with LF or CRLF, the last one also at the end of the stream; a blank line
//! is skipped, and one of more than 8 MiB isn't a request: no more than 8 MiB of it is kept.
//!
//! Its contract says, for every desk, reader and writer: the lines are those of the bytes that the
//! reader gives (`specs/Script.antt`). Each is answered by the desk as the lines before left it.
//! For each right reading of texts and each history whose tables the desk held, the outcomes are
//! those of a run of the commands among the requests, which leaves the tables of the history
//! followed by them. The reply lines are written in order, and the result counts the refused and
//! the failed ones. After a fault, the lines up to some line were answered in this way: what was
//! accepted stays applied, and only the last reply can be missing or cut short.
//!
//! `watched_script` does the same with a `Watch`, which sees each line. If it says so, the script
//! ends with the first line that isn't carried out: only the last line that was answered was
//! refused, isn't a request or failed, and none before it.
//!
//! - `line` gathers the bytes of a line as they come.
//! - `answer` answers the request of a line.
//! - `serving` writes the reply and counts it.
//! - `stream` cuts what is read into lines.
//! - `unwatched` is a script that nothing watches.
#![tactic(auto)]

mod answer;
mod line;
mod serving;
mod stream;
mod unwatched;
mod watch;

pub use answer::{Reply, command_outcome, question_outcome};
pub use serving::{ScriptEnd, ScriptStop, write_bytes};
pub use stream::watched_script;
pub use unwatched::{ScriptFault, script};
pub use watch::Watch;
