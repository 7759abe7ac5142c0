//! The desk's tables in a SQL database: how they are declared, what it means that a database holds
//! them, and how a query reads rows of them.
//!
//! `specs/Layout.antt` is the schema, table by table, and `specs/Desk.antt` says which other schemas
//! have these tables; `specs/Cells.antt` has the cells of each row; `specs/Held.antt` says when a
//! database holds tables (`Holds`: its rows, in any order, and what look-ups rely on) and what
//! contracts see of a connection to it. `specs/Writable.antt` says which changes can be written so
//! that they can be read again, and `writable::is_writable` tests it.
//!
//! `query` makes a query that changes nothing: `query::query` returns its rows as cells, and
//! `read_rows` and `read_one` read them as the desk knows them (`ReadRow`; `rows` has each kind of
//! row, and `columns` the value in a column). A value of another kind, which no desk's table has,
//! is reported as a fault of the store's rows (`ROWS`). `specs/Queried.antt` says what a query
//! shows and leaves, and `specs/Causes.antt` when it fails: if the rows are as a desk writes them,
//! and the steps of a query have no limit, only if no memory is left, or with a fault of the
//! database if the disk failed again.
//!
//! `proofs/` is open to the crates above: what a text means in each schema that has the desk's
//! tables (`Selecting`, `Writing`), what a statement makes of the rows of a table (`Statements`),
//! what a query shows of them (`Queries`, `Orders`, `Selects`, `Finding`), that a unique key appears
//! once (`Apart`), and that a change keeps rows orderly (`Orderly`) and counted (`Counting`).
#![tactic(auto)]

pub mod columns;
pub mod fault;
pub mod query;
pub mod read;
pub mod rows;
pub mod values;
pub mod writable;
