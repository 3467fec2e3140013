//! The law of canonical text, the contract of a function that does nothing.
ghost use Rattle.std.specs.Prelude.{◌≡◌, ℕ, List, Ok};
ghost use Rattle.pm_lexer.specs.declared.token.Token.{Token};
ghost use Rattle.pm_lexer.specs.Tokens.{tokens_of};
ghost use Rattle.pm_syntax.specs.declared.tree.Select.{Select};
ghost use Rattle.pm_syntax.specs.Statement.{Reads};
ghost use Rattle.pm_syntax.specs.Same.{SameStatement};
ghost use Rattle.pm_canonical.specs.ReadBack.{ReadsBack};

/// Canonical text is read back: the canonical text of a statement that is, but for places, one that a text was read as
/// has tokens, which are read as the same statement but for its places, and that one has the same canonical text.
pub fn canonical_text_is_read_back()
    ensures { (text : List ℕ) (tokens : List Token) (reading select : Select) → tokens_of text ≡ Ok tokens → Reads tokens reading → SameStatement reading select → ReadsBack select }
{}
