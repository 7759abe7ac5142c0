//! Requests and replies of the desk as JSON (RFC 8259), as `serde_json` reads and writes it.
//!
//! A request is one JSON object with exactly the members of its form: `do` and the name of a
//! command, or `ask` and the name of a query, and the values that it needs.
//!
//! | `do` | Other members |
//! |---|---|
//! | `catalogue` | `text` |
//! | `import` | `text`, and perhaps `profile` |
//! | `open` | `release`, `form` |
//! | `attach` | `release`, `document` |
//! | `conclude` | `document`, `package`, `expression` |
//! | `adopt` | `document`, `reference`, `licence` |
//! | `choose` | `release`, `document`, `package`, `terms` |
//! | `unchoose` | `release`, `document`, `package` |
//! | `freeze` | `release`, `day` |
//! | `meet`, `reopen` | `duty`, `day`, `text` |
//! | `waive` | `duty`, `day`, `text`, and perhaps `until` |
//! | `close` | `day` |
//! | `withdraw` | `release`, `day`, `text` |
//!
//! | `ask` | Other members |
//! |---|---|
//! | `release`, `duties`, `totals` | `release` |
//! | `changes` | `duty` |
//! | `findings` | `document` |
//! | `alternatives` | `document`, `package` |
//! | `cheapest` | `document`, `package`, `form` |
//! | `releases`, `documents`, `open` | |
//! | `wanting`, `gaps` | `release` |
//! | `ready` | `release`, and perhaps `day` |
//!
//! `document` and `duty` are whole numbers from 0 to 9,223,372,036,854,775,807, `profile` is 1 or 2
//! (`desk_base::Profile`), or 1 if it is absent, `terms` is a list of texts, the others are texts.
//! Anything else is `Request::BadCommand`. Which texts, days and names are allowed isn't checked
//! here: the desk decides that.
//!
//! - `read_command` returns the request that the bytes are, which is a function of the bytes:
//!   `request_in` of `specs/Requests.antt`.
//! - `reply_line` returns the text of the reply to an outcome: `reply_text` of
//!   `specs/Replies.antt`. It is compact, the keys of each object are sorted by their bytes, and it
//!   has no line end.
//!
//! The only error of both is lack of memory.
#![tactic(auto)]

mod cells;
mod fields;
mod forms;
mod reading;
mod refusals;
mod replies;
mod request;
mod row;
mod rows;

pub use reading::read_command;
pub use replies::{bad_command_line, memory_line, reply_line};
pub use request::Request;
