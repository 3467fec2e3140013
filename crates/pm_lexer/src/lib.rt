//! Tokens of schema and query texts: `lex` gives the tokens of a text exactly where it has tokens, and else the
//! refusal with the least place. Beside it stands what a grammar sees of a token, its `Symbol`, and the text that
//! a quoted token stands for.
#![tactic(auto)]

mod fault;
mod head;
mod laws;
mod lexing;
mod quoting;
mod symbol;
mod token;
mod unquote;

pub use fault::LexBad;
pub use head::{DECIMALS, DIGITS, NAME_BYTES, decimals_len};
pub use laws::{tokens_are_the_longest, words_and_signs};
pub use lexing::lex;
pub use quoting::{put_name, put_quoted};
pub use symbol::{NUMBER_BYTES, RESERVED, SIGNS, Symbol};
pub use token::{Token, TokenKind, Tokens};
pub use unquote::content;
