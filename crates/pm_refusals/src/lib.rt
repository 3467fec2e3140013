//! The words of refusal lines: each says in one word what was refused.
#![tactic(auto)]

mod word;

pub use word::Word;
