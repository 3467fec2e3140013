//! Reads the parts of a statement, and a whole one.
ghost use Rattle.std.specs.Prelude.{◌≡◌, ◌⊎◌, List, Result, length, IsErrOf};
ghost use Rattle.pm_lexer.specs.declared.token.Token.{Token};
ghost use Rattle.pm_lexer.specs.declared.symbol.Symbol.TheVariants as symbol;
ghost use Rattle.pm_lexer.specs.Symbol.{is};
ghost use Rattle.pm_grammar.specs.declared.fault.SynBad.{SynBad};
ghost use Rattle.pm_grammar.specs.declared.fault.SynBad.TheVariants as bad;
ghost use Rattle.pm_grammar.specs.Reading.{whole};
ghost use Rattle.pm_grammar.specs.Outcome.{Gives};
ghost use Rattle.pm_syntax.specs.declared.tree.Select.{Select};
ghost use Rattle.pm_syntax.specs.Statement.{CallsFor};
ghost use Rattle.pm_syntax.specs.Reading.{item_list_at, items_at, link_at, join_condition_at, on_at, source_at, more_sources_at, sources_at, where_at, having_at, column_list_at, groups_at, key_list_at, orders_at, select_at};

use crate::conditions::condition;
use crate::entries::given;
use crate::terminals::LinkStart;
use crate::tree::{
    ColumnName, ColumnNames, Item, Items, Link, OrderItem, OrderItems, Select, SelectItems, Source,
    Sources, Test,
};
use pm_grammar::{
    Series, SynBad, further_series, list, name, optional, sees, strip_terminal, token,
};
use pm_lexer::{Symbol, Token, Tokens};
use std::alloc::Global;

/// At most so many entries stand in SELECT, FROM, GROUP BY and ORDER BY.
const ENTRIES: usize = 64;

/// At most so many parentheses and NOTs of a condition are open.
const OPEN: u32 = 32;

// item { "," item }
fn item_list(alloc: Global, tokens: &[Token]) -> Result<(SelectItems, &[Token]), SynBad>
    ensures { Gives (λ x. (x.0, x.1.now)) result (item_list_at tokens.now) }
{
    list::<Item, Symbol>(alloc, Symbol::Comma, ENTRIES, tokens)
}

// items = "*" | item { "," item }
#[tactic(auto, unfolding(crate::specs::Reading::items_at))]
fn items(alloc: Global, tokens: &[Token]) -> Result<(Items, &[Token]), SynBad>
    ensures { Gives (λ x. (x.0, x.1.now)) result (items_at tokens.now) }
{
    if sees(Symbol::Star, tokens) {
        let (star, rest) = token(Symbol::Star, tokens)?;
        let at = star.at;
        return Ok((Items::All { at }, rest));
    }
    let (list, rest) = item_list(alloc, tokens)?;
    Ok((Items::List(list), rest))
}

// "," | [ INNER ] JOIN | LEFT [ OUTER ] JOIN
#[tactic(auto, unfolding(crate::specs::Reading::link_at))]
fn link(tokens: &[Token]) -> Result<(Link, &[Token]), SynBad>
    ensures { Gives (λ x. (x.0, x.1.now)) result (link_at tokens.now) }
{
    if let Some(rest) = strip_terminal(Symbol::Comma, tokens) {
        return Ok((Link::Comma, rest));
    }
    if let Some(rest) = strip_terminal(Symbol::Inner, tokens) {
        let (_, rest) = token(Symbol::Join, rest)?;
        return Ok((Link::Join, rest));
    }
    if let Some(rest) = strip_terminal(Symbol::Left, tokens) {
        let (_, rest) = optional(Symbol::Outer, rest);
        let (_, rest) = token(Symbol::Join, rest)?;
        return Ok((Link::LeftJoin, rest));
    }
    let (_, rest) = token(Symbol::Join, tokens)?;
    Ok((Link::Join, rest))
}

// ON cond
#[tactic(auto, unfolding(crate::specs::Reading::join_condition_at))]
fn join_condition(alloc: Global, tokens: &[Token]) -> Result<(Option<Test>, &[Token]), SynBad>
    ensures { Gives (λ x. (x.0, x.1.now)) result (join_condition_at 32 tokens.now) }
{
    let (_, rest) = token(Symbol::On, tokens)?;
    let (cond, rest) = condition(alloc, false, OPEN, rest)?;
    Ok((Some(cond), rest))
}

// ON cond, where the source is joined
#[tactic(auto, unfolding(crate::specs::Reading::on_at))]
fn on(alloc: Global, link: Link, tokens: &[Token]) -> Result<(Option<Test>, &[Token]), SynBad>
    ensures { Gives (λ x. (x.0, x.1.now)) result (on_at 32 link tokens.now) }
{
    match link {
        Link::Comma => Ok((None, tokens)),
        Link::Join => join_condition(alloc, tokens),
        Link::LeftJoin => join_condition(alloc, tokens),
    }
}

// source = name [ [ AS ] name ], with its condition where it is joined
#[tactic(auto, unfolding(crate::specs::Reading::source_at))]
fn source(alloc: Global, link: Link, tokens: &[Token]) -> Result<(Source, &[Token]), SynBad>
    ensures { Gives (λ x. (x.0, x.1.now)) result (source_at 32 link tokens.now) }
{
    let (table, rest) = name(alloc, Symbol::Name, tokens)?;
    let (alias, rest) = given(alloc, rest)?;
    let (on, rest) = on(alloc, link, rest)?;
    let left = link == Link::LeftJoin;
    let source = Source {
        table,
        alias,
        on,
        left,
    };
    Ok((source, rest))
}

impl Series for Source {
    ghost use Rattle.pm_lexer.specs.declared.symbol.Symbol.TheVariants as symbol;
    ghost use Rattle.pm_lexer.specs.Symbol.{is};
    ghost use Rattle.pm_grammar.specs.Reading.{token_at};
    ghost use Rattle.pm_syntax.specs.Terminals.{begins_link};
    ghost use Rattle.pm_syntax.specs.Reading.{link_at, source_at};

    type Separator = Link;

    type Value = Source;

    ghost starts = { begins_link };

    ghost separates = { link_at };

    ghost peeks = { token_at (is symbol.Name) };

    ghost reads = { source_at 32 };

    fn starts(tokens: &[Token]) -> bool {
        sees(LinkStart, tokens)
    }

    fn separate(tokens: &[Token]) -> Result<(Link, &[Token]), SynBad> {
        link(tokens)
    }

    fn peek(tokens: &[Token]) -> Result<(&Token, &[Token]), SynBad> {
        token(Symbol::Name, tokens)
    }

    fn read(alloc: Global, link: Link, tokens: &[Token]) -> Result<(Source, &[Token]), SynBad> {
        source(alloc, link, tokens)
    }
}

// Further sources.
fn more_sources(
    alloc: Global,
    sources: Sources,
    tokens: &[Token],
) -> Result<(Sources, &[Token]), SynBad>
    ensures { Gives (λ x. (x.0, x.1.now)) result (more_sources_at 32 sources tokens.now) }
{
    further_series::<Source>(alloc, ENTRIES, sources, tokens)
}

// sources = source { "," source | [ INNER ] JOIN source ON cond | LEFT [ OUTER ] JOIN source ON cond }
#[tactic(auto, unfolding(crate::specs::Reading::sources_at))]
fn sources(alloc: Global, tokens: &[Token]) -> Result<(Sources, &[Token]), SynBad>
    ensures { Gives (λ x. (x.0, x.1.now)) result (sources_at 32 tokens.now) }
{
    let mut list = Sources::new(alloc);
    let (first, rest) = source(alloc, Link::Comma, tokens)?;
    list.push(first)?;
    more_sources(alloc, list, rest)
}

// [ WHERE cond ]
#[tactic(auto, unfolding(crate::specs::Reading::where_at))]
fn filter(alloc: Global, tokens: &[Token]) -> Result<(Option<Test>, &[Token]), SynBad>
    ensures { Gives (λ x. (x.0, x.1.now)) result (where_at 32 tokens.now) }
{
    let Some(rest) = strip_terminal(Symbol::Where, tokens) else {
        return Ok((None, tokens));
    };
    let (cond, rest) = condition(alloc, false, OPEN, rest)?;
    Ok((Some(cond), rest))
}

// column { "," column }
fn column_list(alloc: Global, tokens: &[Token]) -> Result<(ColumnNames, &[Token]), SynBad>
    ensures { Gives (λ x. (x.0, x.1.now)) result (column_list_at tokens.now) }
{
    list::<ColumnName, Symbol>(alloc, Symbol::Comma, ENTRIES, tokens)
}

// [ GROUP BY column { "," column } ]
#[tactic(auto, unfolding(crate::specs::Reading::groups_at))]
fn groups(alloc: Global, tokens: &[Token]) -> Result<(ColumnNames, &[Token]), SynBad>
    ensures { Gives (λ x. (x.0, x.1.now)) result (groups_at tokens.now) }
{
    let Some(rest) = strip_terminal(Symbol::Group, tokens) else {
        return Ok((ColumnNames::new(alloc), tokens));
    };
    let (_, rest) = token(Symbol::By, rest)?;
    column_list(alloc, rest)
}

// [ HAVING cond ]
#[tactic(auto, unfolding(crate::specs::Reading::having_at))]
fn having(alloc: Global, tokens: &[Token]) -> Result<(Option<Test>, &[Token]), SynBad>
    ensures { Gives (λ x. (x.0, x.1.now)) result (having_at 32 tokens.now) }
{
    let Some(rest) = strip_terminal(Symbol::Having, tokens) else {
        return Ok((None, tokens));
    };
    let (cond, rest) = condition(alloc, true, OPEN, rest)?;
    Ok((Some(cond), rest))
}

// key { "," key }
fn key_list(alloc: Global, tokens: &[Token]) -> Result<(OrderItems, &[Token]), SynBad>
    ensures { Gives (λ x. (x.0, x.1.now)) result (key_list_at tokens.now) }
{
    list::<OrderItem, Symbol>(alloc, Symbol::Comma, ENTRIES, tokens)
}

// [ ORDER BY key { "," key } ]
#[tactic(auto, unfolding(crate::specs::Reading::orders_at))]
fn orders(alloc: Global, tokens: &[Token]) -> Result<(OrderItems, &[Token]), SynBad>
    ensures { Gives (λ x. (x.0, x.1.now)) result (orders_at tokens.now) }
{
    let Some(rest) = strip_terminal(Symbol::Order, tokens) else {
        return Ok((OrderItems::new(alloc), tokens));
    };
    let (_, rest) = token(Symbol::By, rest)?;
    key_list(alloc, rest)
}

// A whole statement.
#[tactic(auto, unfolding(crate::specs::Reading::select_at))]
fn select(alloc: Global, tokens: &[Token]) -> Result<(Select, &[Token]), SynBad>
    ensures { Gives (λ x. (x.0, x.1.now)) result (select_at 32 tokens.now) }
{
    let (_, rest) = token(Symbol::Select, tokens)?;
    let (distinct, rest) = optional(Symbol::Distinct, rest);
    let distinct = distinct.is_some();
    let (items, rest) = items(alloc, rest)?;
    let (_, rest) = token(Symbol::From, rest)?;
    let (sources, rest) = sources(alloc, rest)?;
    let (filter, rest) = filter(alloc, rest)?;
    let (groups, rest) = groups(alloc, rest)?;
    let (having, rest) = having(alloc, rest)?;
    let (orders, rest) = orders(alloc, rest)?;
    let (_, rest) = optional(Symbol::Semicolon, rest);
    let (_, rest) = token(Symbol::End, rest)?;
    let found = Select {
        distinct,
        items,
        sources,
        filter,
        groups,
        having,
        orders,
    };
    Ok((found, rest))
}

fn whole(alloc: Global, tokens: &[Token]) -> Result<Select, SynBad>
    ensures { Gives (λ s. s) result (whole (select_at 32 tokens.now)) }
{
    let (found, rest) = select(alloc, tokens)?;
    match rest {
        [] => Ok(found),
        [token, ..] => Err(SynBad::Expected(token.at)),
    }
}

/// The SELECT statement that the tokens are: exactly where they have a reading within the limits, and it is that
/// reading. At most 64 entries stand in SELECT, FROM, GROUP BY and ORDER BY, 256 members in an AND, OR or IN list, and
/// 32 parentheses and NOTs of a condition are open.
///
/// `Expected` is the first token with which no statement begins, `TooDeep` the parenthesis or NOT that is the 33rd open
/// one, and `TooMany` the first token of the entry past the limit of its list; each comes exactly where the tokens call
/// for it, which is the one with the least place. `Memory` is want of memory. The grammar is a part of SQL's. The time is
/// linear in the tokens, and the depth of calls is bounded.
pub fn parse(alloc: Global, tokens: &Tokens) -> Result<Select, SynBad>
    ensures answers { CallsFor tokens.now result ⊎ IsErrOf result bad.Memory }
    ensures only { (answer : Result Select SynBad) → CallsFor tokens.now answer → (result ≡ answer) ⊎ IsErrOf result bad.Memory }
{
    whole(alloc, tokens.as_slice())
}

/// Tokens call for one answer of `parse`: for a reading or for one refusal at one place.
#[tactic(auto, using(crate::proofs::WholeReading::some_answer, crate::proofs::WholeReading::one_answer))]
pub fn answers_once()
    ensures some { (tokens : List Token) → (answer : Result Select SynBad) × CallsFor tokens answer }
    ensures one { (tokens : List Token) (a b : Result Select SynBad) → CallsFor tokens a → CallsFor tokens b → a ≡ b }
{}
