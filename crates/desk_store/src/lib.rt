//! The desk in a SQL database.
//!
//! `SqlStore` is a store of rows over a connection: it looks them up by `desk_sql_lookup`, writes a
//! change by `desk_sql_commit`, and keeps in its own value how many rows some tables have, the
//! forms of the catalogue in force and the tallies of the releases (`specs/Counting.antt`). What
//! look-ups ask for again is kept once it was found (`desk_sql_cache`).
//!
//! `SqlDesk` is the desk over such a store, with the reader of texts by their standards. `create`
//! makes the tables of an empty desk in an empty database; `adopt_connection` takes a database that
//! holds a desk's tables as the desk with those rows; if they can't, both return the connection.
//! `audit_connection` reports whether the tables are those of a sound desk, which
//! `adopt_connection` checks first (`specs/Auditing.antt`). `into_connection` returns a desk's
//! connection. `specs/Adopting.antt` says what each returns and leaves, also if the program stops.
//! `snapshot`, `wanting`, `idle_documents` and `sole_choices` show what the answers of a desk
//! don't.
#![tactic(auto)]

mod adopt;
mod audit;
mod counts;
mod desk;
mod fault;
mod looking;
mod store;

pub use audit::audit_connection;
pub use desk::SqlDesk;
pub use desk_beside::Counts;
pub use desk_sql_adopt::has_desk;
pub use desk_sql_migrate::MigrateFault;
pub use fault::{AdoptFault, CreateFault};
pub use store::SqlStore;
