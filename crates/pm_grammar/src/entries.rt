//! Lists of entries with separators between them.
ghost use Rattle.std.specs.Prelude.{◌≡◌, ◌<◌, ◌≤◌, IfOk, length};
ghost use Rattle.pm_grammar.specs.Reading.{entry_at, limited_at, place_of};
ghost use Rattle.pm_grammar.specs.Lists.{ReadsFurther, ReadsSeries, ReadsWhile, ReadsList};
ghost use Rattle.pm_grammar.specs.Outcome.{Gives, IsRead};

use crate::fault::SynBad;
use crate::terminal::{Terminal, place, sees, strip_terminal};
use pm_lexer::Token;
use pm_values::Items;
use std::alloc::Global;

/// A kind of entries of a list.
pub trait Entry {
    ghost use Rattle.std.specs.Prelude.{◌≤◌, List, IfOk, length};
    ghost use Rattle.pm_lexer.specs.declared.token.Token.{Token};
    ghost use Rattle.pm_grammar.specs.Reading.{Read};
    ghost use Rattle.pm_grammar.specs.Outcome.{Gives};

    /// What an entry says.
    type Value: Drop;

    /// What reading an entry answers.
    ghost reads: { List Token → Read Self.Value };

    /// What the first token of an entry past the limit of its list says.
    ghost peeks: { List Token → Read Token };

    /// Reads an entry. No more tokens follow it than there are.
    fn read(alloc: Global, tokens: &[Token]) -> Result<(Self::Value, &[Token]), SynBad>
        ensures read { Gives (λ x. (x.0, x.1.now)) result (reads tokens.now) }
        ensures follows { IfOk result (λ x. length x.1.now ≤ length tokens.now) };

    /// Reads the first token of an entry.
    fn peek(tokens: &[Token]) -> Result<(&Token, &[Token]), SynBad>
        ensures { Gives (λ x. (x.0.now, x.1.now)) result (peeks tokens.now) };
}

// An entry, or why there is none past the limit.
fn next_entry<E: Entry>(
    alloc: Global,
    past: bool,
    tokens: &[Token],
) -> Result<(E::Value, &[Token]), SynBad>
    ensures read { Gives (λ x. (x.0, x.1.now)) result (entry_at past E.peeks E.reads tokens.now) }
    ensures follows { IfOk result (λ x. length x.1.now ≤ length tokens.now) }
{
    if past {
        let (_, _) = E::peek(tokens)?;
        return Err(SynBad::TooMany(place(tokens)));
    }
    E::read(alloc, tokens)
}

/// Further entries, each after a separator, up to this limit of the whole list.
pub fn further<E: Entry, T: Terminal>(
    alloc: Global,
    separator: T,
    limit: usize,
    mut list: Items<E::Value>,
    mut rest: &[Token],
) -> Result<(Items<E::Value>, &[Token]), SynBad>
    ensures { IsRead (λ x. (x.0, x.1.now)) result (ReadsFurther (T.accepts separator) E.peeks E.reads limit list rest.entry.now) }
{
    'entries: for _ in 0..rest.len() {
        let Some(next) = strip_terminal(separator, rest) else {
            return Ok((list, rest));
        };
        let (entry, remaining) = next_entry::<E>(alloc, list.len() >= limit, next)?;
        list.push(entry)?;
        rest = remaining;
    }
    Ok((list, rest))
}

/// One or more entries with separators between them, at most so many.
pub fn list<E: Entry, T: Terminal>(
    alloc: Global,
    separator: T,
    limit: usize,
    tokens: &[Token],
) -> Result<(Items<E::Value>, &[Token]), SynBad>
    ensures { IsRead (λ x. (x.0, x.1.now)) result (ReadsList (T.accepts separator) E.peeks E.reads limit tokens.now) }
{
    let mut list = Items::new(alloc);
    let (first, rest) = E::read(alloc, tokens)?;
    list.push(first)?;
    further::<E, T>(alloc, separator, limit, list, rest)
}

// An entry whose first token was seen, or that there is none past the limit.
fn limited<E: Entry>(
    alloc: Global,
    past: bool,
    tokens: &[Token],
) -> Result<(E::Value, &[Token]), SynBad>
    ensures read { Gives (λ x. (x.0, x.1.now)) result (limited_at past E.reads tokens.now) }
    ensures follows { IfOk result (λ x. length x.1.now ≤ length tokens.now) }
{
    if past {
        return Err(SynBad::TooMany(place(tokens)));
    }
    E::read(alloc, tokens)
}

/// Further entries, each after a separator, while an entry's first terminal comes next after it: what follows the list
/// may begin with the separator too.
pub fn further_while<E: Entry, T: Terminal, U: Terminal>(
    alloc: Global,
    separator: T,
    first: U,
    limit: usize,
    mut list: Items<E::Value>,
    mut rest: &[Token],
) -> Result<(Items<E::Value>, &[Token]), SynBad>
    ensures { IsRead (λ x. (x.0, x.1.now)) result (ReadsWhile (T.accepts separator) (U.accepts first) E.reads limit list rest.entry.now) }
{
    'entries: for _ in 0..rest.len() {
        let Some(next) = strip_terminal(separator, rest) else {
            return Ok((list, rest));
        };
        if !sees(first, next) {
            return Ok((list, rest));
        }
        let (entry, remaining) = limited::<E>(alloc, list.len() >= limit, next)?;
        list.push(entry)?;
        rest = remaining;
    }
    Ok((list, rest))
}

/// A kind of lists whose entries stand after separators of their own.
pub trait Series {
    ghost use Rattle.std.specs.Prelude.{◌≡◌, ◌<◌, ◌≤◌, Bool, List, IfOk, length};
    ghost use Rattle.pm_lexer.specs.declared.token.Token.{Token};
    ghost use Rattle.pm_grammar.specs.Reading.{Read, sees};
    ghost use Rattle.pm_grammar.specs.Outcome.{Gives};

    /// What a separator says.
    type Separator: Copy;

    /// What an entry says.
    type Value: Drop;

    /// Whether a token begins a separator.
    ghost starts: { Token → Bool };

    /// What reading a separator answers.
    ghost separates: { List Token → Read Self.Separator };

    /// What the first token of an entry past the limit of its list says.
    ghost peeks: { List Token → Read Token };

    /// What reading an entry after a separator answers.
    ghost reads: { Self.Separator → List Token → Read Self.Value };

    /// Whether a separator begins.
    fn starts(tokens: &[Token]) -> bool
        ensures { result ≡ sees starts tokens.now };

    /// Reads a separator, which may be empty.
    fn separate(tokens: &[Token]) -> Result<(Self::Separator, &[Token]), SynBad>
        ensures read { Gives (λ x. (x.0, x.1.now)) result (separates tokens.now) }
        ensures follows { IfOk result (λ x. length x.1.now ≤ length tokens.now) };

    /// Reads the first token of an entry.
    fn peek(tokens: &[Token]) -> Result<(&Token, &[Token]), SynBad>
        ensures { Gives (λ x. (x.0.now, x.1.now)) result (peeks tokens.now) };

    /// Reads an entry after a separator. It is a token at least.
    fn read(
        alloc: Global,
        separator: Self::Separator,
        tokens: &[Token],
    ) -> Result<(Self::Value, &[Token]), SynBad>
        ensures read { Gives (λ x. (x.0, x.1.now)) result (reads separator tokens.now) }
        ensures follows { IfOk result (λ x. length x.1.now < length tokens.now) };
}

// An entry of a series, or why there is none past the limit.
fn next_of_series<E: Series>(
    alloc: Global,
    past: bool,
    separator: E::Separator,
    tokens: &[Token],
) -> Result<(E::Value, &[Token]), SynBad>
    ensures read { Gives (λ x. (x.0, x.1.now)) result (entry_at past E.peeks (E.reads separator) tokens.now) }
    ensures follows { IfOk result (λ x. length x.1.now < length tokens.now) }
{
    if past {
        let (_, _) = E::peek(tokens)?;
        return Err(SynBad::TooMany(place(tokens)));
    }
    E::read(alloc, separator, tokens)
}

/// Further entries of a series, up to this limit of the whole list.
pub fn further_series<E: Series>(
    alloc: Global,
    limit: usize,
    mut list: Items<E::Value>,
    mut rest: &[Token],
) -> Result<(Items<E::Value>, &[Token]), SynBad>
    ensures { IsRead (λ x. (x.0, x.1.now)) result (ReadsSeries E.starts E.separates E.peeks E.reads limit list rest.entry.now) }
{
    'entries: for _ in 0..rest.len() {
        if !E::starts(rest) {
            return Ok((list, rest));
        }
        let (separator, next) = E::separate(rest)?;
        let (entry, remaining) = next_of_series::<E>(alloc, list.len() >= limit, separator, next)?;
        list.push(entry)?;
        rest = remaining;
    }
    Ok((list, rest))
}
