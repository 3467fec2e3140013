//! Laws of lists.
ghost use Rattle.std.specs.Prelude.{◌≡◌, ◌<◌, ◌≤◌, ℕ, Bool, List, Ok, length};
ghost use Rattle.pm_lexer.specs.declared.token.Token.{Token};
ghost use Rattle.pm_grammar.specs.Reading.{Read};
ghost use Rattle.pm_grammar.specs.Lists.{ReadsSeries, ReadsList};

use crate::entries::{Entry, Series};

/// Whatever stands between its entries and whatever the limit, a list reads one thing from given tokens: entries and
/// what follows them, or one refusal. It reads something where no more tokens follow an entry than there were.
pub fn lists_are_read_once<E: Entry>()
    ensures some { ((tokens rest : List Token) (value : E.Value) → E.reads tokens ≡ Ok (value, rest) → length rest ≤ length tokens) → (separator : Token → Bool) (limit : ℕ) (tokens : List Token) → (read : Read (List E.Value)) × ReadsList separator E.peeks E.reads limit tokens read }
    ensures one { (separator : Token → Bool) (limit : ℕ) (tokens : List Token) (a b : Read (List E.Value)) → ReadsList separator E.peeks E.reads limit tokens a → ReadsList separator E.peeks E.reads limit tokens b → a ≡ b }
{}

/// So does the rest of a series, after the entries before it: something where a separator and an entry are a token at least.
pub fn series_are_read_once<E: Series>()
    ensures some { ((tokens next rest : List Token) (separator : E.Separator) (value : E.Value) → E.separates tokens ≡ Ok (separator, next) → E.reads separator next ≡ Ok (value, rest) → length rest < length tokens) → (limit : ℕ) (before : List E.Value) (tokens : List Token) → (read : Read (List E.Value)) × ReadsSeries E.starts E.separates E.peeks E.reads limit before tokens read }
    ensures one { (limit : ℕ) (before : List E.Value) (tokens : List Token) (a b : Read (List E.Value)) → ReadsSeries E.starts E.separates E.peeks E.reads limit before tokens a → ReadsSeries E.starts E.separates E.peeks E.reads limit before tokens b → a ≡ b }
{}
