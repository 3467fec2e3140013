//! Reads columns, expressions, literals and operands.
ghost use Rattle.std.specs.Prelude.{◌≡◌, Some};
ghost use Rattle.pm_grammar.specs.Reading.{named};
ghost use Rattle.pm_grammar.specs.Outcome.{Gives};
ghost use Rattle.pm_syntax.specs.Terminals.{func_of};
ghost use Rattle.pm_syntax.specs.Reading.{column_after, column_at, call_after, expr_after, expr_at, literal_at, term_at, operand_at};

use crate::numbers::number;
use crate::terminals::func;
use crate::tree::{Atom, ColumnName, Expr, Func, Literal};
use pm_grammar::{PlacedName, SynBad, name, placed, sees, strip_terminal, token};
use pm_lexer::{Symbol, Token, content};
use std::alloc::Global;

// A column, after its first name.
#[tactic(auto, unfolding(crate::specs::Reading::column_after))]
fn column_after(
    alloc: Global,
    first: PlacedName,
    tokens: &[Token],
) -> Result<(ColumnName, &[Token]), SynBad>
    ensures { Gives (λ x. (x.0, x.1.now)) result (column_after first tokens.now) }
{
    let Some(rest) = strip_terminal(Symbol::Point, tokens) else {
        let column = ColumnName {
            alias: None,
            name: first,
        };
        return Ok((column, tokens));
    };
    let (name, rest) = name(alloc, Symbol::Name, rest)?;
    let column = ColumnName {
        alias: Some(first),
        name,
    };
    Ok((column, rest))
}

// column = name [ "." name ]
#[tactic(auto, unfolding(crate::specs::Reading::column_at))]
pub(crate) fn column(alloc: Global, tokens: &[Token]) -> Result<(ColumnName, &[Token]), SynBad>
    ensures { Gives (λ x. (x.0, x.1.now)) result (column_at tokens.now) }
{
    let (first, rest) = name(alloc, Symbol::Name, tokens)?;
    column_after(alloc, first, rest)
}

// What stands between a function's parentheses.
#[tactic(auto, unfolding(crate::specs::Reading::call_after))]
fn call_after<'a>(
    alloc: Global,
    first: &Token,
    func: Func,
    tokens: &'a [Token],
) -> Result<(Expr, &'a [Token]), SynBad>
    requires { func_of first.now ≡ Some func }
    ensures { Gives (λ x. (x.0, x.1.now)) result (call_after first.now tokens.now) }
{
    let at = first.at;
    if func == Func::Count {
        if let Some(rest) = strip_terminal(Symbol::Star, tokens) {
            let (_, rest) = token(Symbol::Close, rest)?;
            return Ok((Expr::CountAll { at }, rest));
        }
    }
    let (column, rest) = column(alloc, tokens)?;
    let (_, rest) = token(Symbol::Close, rest)?;
    Ok((Expr::Call { func, column, at }, rest))
}

// An expression, after its first name.
#[tactic(auto, unfolding(crate::specs::Reading::expr_after))]
fn expr_after<'a>(
    alloc: Global,
    first: &Token,
    tokens: &'a [Token],
) -> Result<(Expr, &'a [Token]), SynBad>
    ensures { Gives (λ x. (x.0, x.1.now)) result (expr_after first.now tokens.now) }
{
    if let Some(func) = func(first) {
        if let Some(rest) = strip_terminal(Symbol::Open, tokens) {
            return call_after(alloc, first, func, rest);
        }
    }
    let name = placed(alloc, first)?;
    let (column, rest) = column_after(alloc, name, tokens)?;
    Ok((Expr::Column(column), rest))
}

// expr = column | COUNT "(" "*" ")" | func "(" column ")"
#[tactic(auto, unfolding(crate::specs::Reading::expr_at))]
pub(crate) fn expr(alloc: Global, tokens: &[Token]) -> Result<(Expr, &[Token]), SynBad>
    ensures { Gives (λ x. (x.0, x.1.now)) result (expr_at tokens.now) }
{
    let (first, rest) = token(Symbol::Name, tokens)?;
    expr_after(alloc, first, rest)
}

// literal = [ "-" ] number | text | NULL
#[tactic(auto, unfolding(crate::specs::Reading::literal_at))]
pub(crate) fn literal(alloc: Global, tokens: &[Token]) -> Result<(Literal, &[Token]), SynBad>
    ensures { Gives (λ x. (x.0, x.1.now)) result (literal_at tokens.now) }
{
    if let Some(rest) = strip_terminal(Symbol::Minus, tokens) {
        let (digits, rest) = token(Symbol::Number, rest)?;
        let found = number(digits, true);
        return Ok((found, rest));
    }
    if sees(Symbol::Text, tokens) {
        let (quoted, rest) = token(Symbol::Text, tokens)?;
        let text = content(alloc, quoted)?;
        return Ok((Literal::Text(text), rest));
    }
    if let Some(rest) = strip_terminal(Symbol::Null, tokens) {
        return Ok((Literal::Null, rest));
    }
    let (digits, rest) = token(Symbol::Number, tokens)?;
    let found = number(digits, false);
    Ok((found, rest))
}

// An expression, which is a column where the condition is not grouped.
#[tactic(auto, unfolding(crate::specs::Reading::term_at))]
fn term(alloc: Global, grouped: bool, tokens: &[Token]) -> Result<(Expr, &[Token]), SynBad>
    ensures { Gives (λ x. (x.0, x.1.now)) result (term_at grouped tokens.now) }
{
    if grouped {
        return expr(alloc, tokens);
    }
    let (column, rest) = column(alloc, tokens)?;
    Ok((Expr::Column(column), rest))
}

// operand = expr | literal
#[tactic(auto, unfolding(crate::specs::Reading::operand_at))]
pub(crate) fn operand(
    alloc: Global,
    grouped: bool,
    tokens: &[Token],
) -> Result<(Atom, &[Token]), SynBad>
    ensures { Gives (λ x. (x.0, x.1.now)) result (operand_at grouped tokens.now) }
{
    if sees(Symbol::Name, tokens) {
        let (expr, rest) = term(alloc, grouped, tokens)?;
        return Ok((Atom::Expr(expr), rest));
    }
    let (literal, rest) = literal(alloc, tokens)?;
    Ok((Atom::Literal(literal), rest))
}
