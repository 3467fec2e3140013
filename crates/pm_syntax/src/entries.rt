//! The entries of the lists of a statement: columns, selected expressions, keys of ORDER BY, and literals.
ghost use Rattle.std.specs.Prelude.{◌≡◌, Ok};
ghost use Rattle.pm_lexer.specs.Symbol.{is};
ghost use Rattle.pm_grammar.specs.Reading.{token_at};
ghost use Rattle.pm_grammar.specs.Outcome.{Gives};
ghost use Rattle.pm_syntax.specs.Reading.{given_at, item_at, direction_at, key_at};

use crate::expressions::{column, expr, literal};
use crate::terminals::LiteralStart;
use crate::tree::{ColumnName, Item, Literal, OrderItem};
use pm_grammar::{Entry, PlacedName, SynBad, name, sees, strip_terminal, token};
use pm_lexer::{Symbol, Token};
use std::alloc::Global;

impl Entry for ColumnName {
    ghost use Rattle.pm_lexer.specs.declared.symbol.Symbol.TheVariants as symbol;
    ghost use Rattle.pm_syntax.specs.Reading.{column_at};

    type Value = ColumnName;

    ghost reads = { column_at };

    ghost peeks = { token_at (is symbol.Name) };

    fn read(alloc: Global, tokens: &[Token]) -> Result<(ColumnName, &[Token]), SynBad> {
        column(alloc, tokens)
    }

    fn peek(tokens: &[Token]) -> Result<(&Token, &[Token]), SynBad> {
        token(Symbol::Name, tokens)
    }
}

// [ [ AS ] name ]
#[tactic(auto, unfolding(crate::specs::Reading::given_at))]
pub(crate) fn given(
    alloc: Global,
    tokens: &[Token],
) -> Result<(Option<PlacedName>, &[Token]), SynBad>
    ensures { Gives (λ x. (x.0, x.1.now)) result (given_at tokens.now) }
{
    if let Some(rest) = strip_terminal(Symbol::As, tokens) {
        let (given, rest) = name(alloc, Symbol::Name, rest)?;
        return Ok((Some(given), rest));
    }
    if sees(Symbol::Name, tokens) {
        let (given, rest) = name(alloc, Symbol::Name, tokens)?;
        return Ok((Some(given), rest));
    }
    Ok((None, tokens))
}

// item = expr [ [ AS ] name ]
#[tactic(auto, unfolding(crate::specs::Reading::item_at))]
fn item(alloc: Global, tokens: &[Token]) -> Result<(Item, &[Token]), SynBad>
    ensures { Gives (λ x. (x.0, x.1.now)) result (item_at tokens.now) }
{
    let (expr, rest) = expr(alloc, tokens)?;
    let (given, rest) = given(alloc, rest)?;
    Ok((Item { expr, given }, rest))
}

impl Entry for Item {
    ghost use Rattle.pm_lexer.specs.declared.symbol.Symbol.TheVariants as symbol;
    ghost use Rattle.pm_syntax.specs.Reading.{item_at};

    type Value = Item;

    ghost reads = { item_at };

    ghost peeks = { token_at (is symbol.Name) };

    fn read(alloc: Global, tokens: &[Token]) -> Result<(Item, &[Token]), SynBad> {
        item(alloc, tokens)
    }

    fn peek(tokens: &[Token]) -> Result<(&Token, &[Token]), SynBad> {
        token(Symbol::Name, tokens)
    }
}

// [ ASC | DESC ]: whether the order is descending
#[tactic(auto, unfolding(crate::specs::Reading::direction_at))]
fn direction(tokens: &[Token]) -> (bool, &[Token])
    ensures { direction_at tokens.now ≡ Ok (result.0, result.1.now) }
{
    if let Some(rest) = strip_terminal(Symbol::Desc, tokens) {
        return (true, rest);
    }
    if let Some(rest) = strip_terminal(Symbol::Asc, tokens) {
        return (false, rest);
    }
    (false, tokens)
}

// key = expr [ ASC | DESC ]
#[tactic(auto, unfolding(crate::specs::Reading::key_at))]
fn key(alloc: Global, tokens: &[Token]) -> Result<(OrderItem, &[Token]), SynBad>
    ensures { Gives (λ x. (x.0, x.1.now)) result (key_at tokens.now) }
{
    let (expr, rest) = expr(alloc, tokens)?;
    let (descending, rest) = direction(rest);
    Ok((OrderItem { expr, descending }, rest))
}

impl Entry for OrderItem {
    ghost use Rattle.pm_lexer.specs.declared.symbol.Symbol.TheVariants as symbol;
    ghost use Rattle.pm_syntax.specs.Reading.{key_at};

    type Value = OrderItem;

    ghost reads = { key_at };

    ghost peeks = { token_at (is symbol.Name) };

    fn read(alloc: Global, tokens: &[Token]) -> Result<(OrderItem, &[Token]), SynBad> {
        key(alloc, tokens)
    }

    fn peek(tokens: &[Token]) -> Result<(&Token, &[Token]), SynBad> {
        token(Symbol::Name, tokens)
    }
}

impl Entry for Literal {
    ghost use Rattle.pm_syntax.specs.Terminals.{begins_literal};
    ghost use Rattle.pm_syntax.specs.Reading.{literal_at};

    type Value = Literal;

    ghost reads = { literal_at };

    ghost peeks = { token_at begins_literal };

    fn read(alloc: Global, tokens: &[Token]) -> Result<(Literal, &[Token]), SynBad> {
        literal(alloc, tokens)
    }

    fn peek(tokens: &[Token]) -> Result<(&Token, &[Token]), SynBad> {
        token(LiteralStart, tokens)
    }
}
