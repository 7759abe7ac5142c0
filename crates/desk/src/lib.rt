//! The desk as a library: its calls, by subject.
//!
//! | Module | What it has |
//! |---|---|
//! | `base` | days, idstrings, keys, lines, texts, the limits |
//! | `expr` | licence expressions: tokens, trees, printing, what satisfies them |
//! | `alts` | all minimal sets of terms that satisfy an expression, and the cheapest |
//! | `tagvalue` | documents in tag-value form, read and written |
//! | `bom` | what a document ships, verification codes, findings |
//! | `reuse` | source trees: what their files state, the draft of a document, what they lack |
//! | `catalogue` | catalogues of duties |
//! | `commands` | commands, questions and their answers; a desk in memory |
//! | `audit` | the rows of a desk, and the first condition that they don't meet |
//! | `store` | a desk in a database |
//! | `report` | notices, tables, totals and changes as texts |
//! | `http` | requests and replies, as lines and over HTTP |
//!
//! Nothing is defined here. What a call promises is written where it is declared, and its
//! definitions keep the names of their crates.
#![tactic(auto)]

pub mod alts;
pub mod audit;
pub mod base;
pub mod bom;
pub mod catalogue;
pub mod commands;
pub mod expr;
pub mod http;
pub mod report;
pub mod reuse;
pub mod store;
pub mod tagvalue;
