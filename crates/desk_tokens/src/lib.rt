//! Tokens of licence expressions (SPDX 2.3, Annex D): parentheses, operators and words.
//!
//! A text is cut into parentheses and runs of other bytes, as long as possible, with blanks around
//! them (`AreTokensBy`, specs/Tokens.antt), and specs/Words.antt says what a run is.
//!
//! Operators are in capitals. `tokens_in` takes a profile, which may allow small letters too.
#![tactic(auto)]

mod cut;
mod token;
mod word;

pub use cut::{TokenCuts, is_reference};
pub use token::{Kind, Token, tokens, tokens_in};
pub use word::without_plus;
