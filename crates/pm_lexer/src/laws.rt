//! The laws of the definitions, each the contract of a function that does nothing.
ghost use Rattle.std.specs.Prelude.{◌≡◌, ℕ, List, Ok, map};
ghost use Rattle.std.specs.Str.{IsUtf8};
ghost use Rattle.pm_lexer.specs.declared.token.Token.{Token};
ghost use Rattle.pm_lexer.specs.declared.symbol.TheConstants.{RESERVED, SIGNS};
ghost use Rattle.pm_lexer.specs.Words.{reserved_words, signs};
ghost use Rattle.pm_lexer.specs.Symbol.{spelling};
ghost use Rattle.pm_lexer.specs.Parts.{AreTokens};
ghost use Rattle.pm_lexer.specs.Tokens.{tokens_of};

/// The reserved words and the signs are these.
pub fn words_and_signs()
    ensures words { map spelling RESERVED ≡ reserved_words }
    ensures signs { map spelling SIGNS ≡ signs }
{}

/// The tokens of a text and the gaps between them are the text, and each token is the longest one at its place.
#[tactic(auto, using(crate::proofs::InTurns::tokens_are))]
pub fn tokens_are_the_longest()
    ensures { (text : List ℕ) (tokens : List Token) → IsUtf8 text → tokens_of text ≡ Ok tokens → AreTokens 0 text tokens }
{}
