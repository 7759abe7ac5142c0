//! Licence expressions (SPDX 2.3, Annex D).

pub use desk_alts::{Verdict, check_choice, holds};
pub use desk_expr::{
    Expr, ParseFault, Profile, Shape, Term, parse, parse_in, parse_term, parse_term_in, print,
    print_term, terms,
};
pub use desk_tokens::{Kind, Token, tokens, tokens_in};
