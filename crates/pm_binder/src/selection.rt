//! SELECT, GROUP BY, HAVING and ORDER BY with their names resolved.
ghost use Rattle.std.specs.Prelude.{◌≡◌, ◌<◌, ◌^◌, length, map, IfOk};
ghost use Rattle.std.specs.List.{find, list_any};
ghost use Rattle.std.specs.Option.{option_copied};
ghost use Rattle.pm_canonical.specs.Canon.{canon_expr};
ghost use Rattle.pm_names.specs.Breaches.{verdict};
ghost use Rattle.pm_names.specs.Names.{column_of};
ghost use Rattle.pm_binder.specs.Grouping.{item_list, star_of, all_terms, list_terms, item_terms, item_breaches, expr_head, item_head, heads_of, is_given, names_item, ordered_by, order_term, order_breaches, orders_breaches, is_call, having_terms, key_columns, is_grouped, terms_of};

use crate::terms::{OrderTerm, OrderTerms, Terms};
use pm_canonical::put_expr;
use pm_names::{
    BindBad, KnownColumn, PlacedTerm, PlacedTerms, Term, check_expr, column_of, expr_at,
    placed_term, push_new, push_terms, term_of,
};
use pm_syntax::{ColumnName, Expr, Item, Items, OrderItem, PlacedName, Select, Test};
use pm_values::{Columns, Names, Txt};
use std::alloc::{AllocError, Global};

/// The selected expressions, none where `*` stands.
pub(crate) fn item_list(items: &Items) -> &[Item]
    ensures { result.now ≡ item_list items.now }
{
    match items {
        Items::All { .. } => &[],
        Items::List(list) => list.as_slice(),
    }
}

fn star_of(items: &Items) -> Option<u64>
    ensures { result ≡ star_of items.now }
{
    match items {
        Items::All { at } => Some(*at),
        Items::List(_) => None,
    }
}

// All columns, at the place of `*`.
fn all_terms(alloc: Global, columns: u32, at: u64) -> Result<PlacedTerms, AllocError>
    ensures { IfOk result (λ made. made ≡ all_terms columns at) }
{
    let mut terms = PlacedTerms::new(alloc);
    for column in 0..columns {
        let term = Term::Column(column);
        terms.push(PlacedTerm { term, at })?;
    }
    Ok(terms)
}

fn list_terms(
    alloc: Global,
    known: &[KnownColumn],
    items: &[Item],
) -> Result<PlacedTerms, AllocError>
    requires { length known.now < 2 ^ 32 }
    ensures { IfOk result (λ made. made ≡ list_terms known.now items.now) }
{
    let mut terms = PlacedTerms::new(alloc);
    for item in items {
        terms.push(placed_term(known, &item.expr))?;
    }
    Ok(terms)
}

fn item_terms(
    alloc: Global,
    known: &[KnownColumn],
    items: &Items,
) -> Result<PlacedTerms, AllocError>
    requires { length known.now < 2 ^ 32 }
    ensures { IfOk result (λ made. made ≡ item_terms known.now items.now) }
{
    match items {
        Items::All { at } => all_terms(alloc, known.len() as u32, *at),
        Items::List(list) => list_terms(alloc, known, list.as_slice()),
    }
}

fn canonical_head(alloc: Global, expr: &Expr) -> Result<Txt, AllocError>
    ensures { IfOk result (λ head. head ≡ canon_expr expr.now) }
{
    let mut head = String::new(alloc);
    put_expr(&mut head, expr)?;
    Txt::new(alloc, head.as_str())
}

fn expr_head(alloc: Global, expr: &Expr) -> Result<Txt, AllocError>
    ensures { IfOk result (λ head. head ≡ expr_head expr.now) }
{
    match expr {
        Expr::Column(name) => name.name.text.copy(alloc),
        Expr::CountAll { .. } => canonical_head(alloc, expr),
        Expr::Call { .. } => canonical_head(alloc, expr),
    }
}

fn item_head(alloc: Global, item: &Item) -> Result<Txt, AllocError>
    ensures { IfOk result (λ head. head ≡ item_head item.now) }
{
    match &item.given {
        Some(given) => given.text.copy(alloc),
        None => expr_head(alloc, &item.expr),
    }
}

fn column_heads(alloc: Global, known: &[KnownColumn]) -> Result<Names, AllocError>
    ensures { IfOk result (λ heads. heads ≡ map (λ column. column.name) known.now) }
{
    let mut heads = Names::new(alloc);
    for column in known {
        heads.push(column.name.copy(alloc)?)?;
    }
    Ok(heads)
}

fn list_heads(alloc: Global, items: &[Item]) -> Result<Names, AllocError>
    ensures { IfOk result (λ heads. heads ≡ map item_head items.now) }
{
    let mut heads = Names::new(alloc);
    for item in items {
        heads.push(item_head(alloc, item)?)?;
    }
    Ok(heads)
}

/// The names of the selected columns.
pub(crate) fn heads_of(
    alloc: Global,
    known: &[KnownColumn],
    items: &Items,
) -> Result<Names, AllocError>
    ensures { IfOk result (λ heads. heads ≡ heads_of known.now items.now) }
{
    match items {
        Items::All { .. } => column_heads(alloc, known),
        Items::List(list) => list_heads(alloc, list.as_slice()),
    }
}

/// Whether the names of all selected expressions mean columns.
pub(crate) fn check_items(known: &[KnownColumn], items: &[Item]) -> Result<(), BindBad>
    requires { length known.now < 2 ^ 32 }
    ensures { result ≡ verdict (item_breaches known.now items.now) }
{
    for item in items {
        check_expr(known, &item.expr)?;
    }
    Ok(())
}

fn is_given(text: &[u8], given: &Option<PlacedName>) -> bool
    ensures { result ≡ is_given text.now given.now }
{
    match given {
        None => false,
        Some(given) => given.text.bytes() == text,
    }
}

// Whether the expression is the AS name of a selected one.
fn names_item(expr: &Expr, item: &Item) -> bool
    ensures { result ≡ names_item expr.now item.now }
{
    match expr {
        Expr::Column(name) => {
            name.alias.is_none() && is_given(name.name.text.bytes(), &item.given)
        }
        Expr::CountAll { .. } => false,
        Expr::Call { .. } => false,
    }
}

fn named<'a>(items: &'a [Item], expr: &Expr) -> Option<&'a Item>
    ensures { option_copied result ≡ find (names_item expr.now) items.now }
{
    items.iter().find(|item| names_item(expr, item))
}

// What an entry of ORDER BY stands for.
fn ordered_by<'a>(items: &'a [Item], expr: &'a Expr) -> &'a Expr
    ensures { result.now ≡ ordered_by items.now expr.now }
{
    match named(items, expr) {
        Some(item) => &item.expr,
        None => expr,
    }
}

fn order_term(known: &[KnownColumn], items: &[Item], key: &OrderItem) -> OrderTerm
    requires { length known.now < 2 ^ 32 }
    ensures { result ≡ order_term known.now items.now key.now }
{
    let term = term_of(known, ordered_by(items, &key.expr));
    let at = expr_at(&key.expr);
    let descending = key.descending;
    OrderTerm {
        term,
        at,
        descending,
    }
}

fn order_terms(
    alloc: Global,
    known: &[KnownColumn],
    items: &[Item],
    keys: &[OrderItem],
) -> Result<OrderTerms, AllocError>
    requires { length known.now < 2 ^ 32 }
    ensures { IfOk result (λ made. made ≡ map (order_term known.now items.now) keys.now) }
{
    let mut terms = OrderTerms::new(alloc);
    for key in keys {
        terms.push(order_term(known, items, key))?;
    }
    Ok(terms)
}

// Whether an entry of ORDER BY names one selected expression, or means something among the columns.
fn check_order(known: &[KnownColumn], items: &[Item], key: &OrderItem) -> Result<(), BindBad>
    requires { length known.now < 2 ^ 32 }
    ensures { result ≡ verdict (order_breaches known.now items.now key.now) }
{
    let expr = &key.expr;
    match items.iter().filter(|item| names_item(expr, item)).count() {
        0 => check_expr(known, expr),
        1 => Ok(()),
        _ => Err(BindBad::TwoColumns(expr_at(expr))),
    }
}

/// The same of each entry of ORDER BY.
pub(crate) fn check_orders(
    known: &[KnownColumn],
    items: &[Item],
    keys: &[OrderItem],
) -> Result<(), BindBad>
    requires { length known.now < 2 ^ 32 }
    ensures { result ≡ verdict (orders_breaches known.now items.now keys.now) }
{
    for key in keys {
        check_order(known, items, key)?;
    }
    Ok(())
}

// The columns of GROUP BY, each once.
fn key_columns(
    alloc: Global,
    known: &[KnownColumn],
    groups: &[ColumnName],
) -> Result<Columns, AllocError>
    requires { length known.now < 2 ^ 32 }
    ensures { IfOk result (λ made. made ≡ key_columns known.now groups.now) }
{
    let mut keys = Columns::new(alloc);
    for name in groups {
        push_new(&mut keys, column_of(known, name))?;
    }
    Ok(keys)
}

fn having_terms(
    alloc: Global,
    known: &[KnownColumn],
    having: &Option<Test>,
) -> Result<PlacedTerms, AllocError>
    requires { length known.now < 2 ^ 32 }
    ensures { IfOk result (λ made. made ≡ having_terms known.now having.now) }
{
    let mut terms = PlacedTerms::new(alloc);
    match having {
        None => Ok(terms),
        Some(test) => {
            push_terms(&mut terms, known, test)?;
            Ok(terms)
        }
    }
}

fn is_call(term: Term) -> bool
    ensures { result ≡ is_call term }
{
    match term {
        Term::Column(_) => false,
        Term::Call(_) => true,
    }
}

fn some_call(items: &[PlacedTerm]) -> bool
    ensures { result ≡ list_any (λ placed. is_call placed.term) items.now }
{
    items.iter().any(|placed| is_call(placed.term))
}

fn some_ordered_call(orders: &[OrderTerm]) -> bool
    ensures { result ≡ list_any (λ order. is_call order.term) orders.now }
{
    orders.iter().any(|order| is_call(order.term))
}

fn is_grouped(select: &Select, items: &[PlacedTerm], orders: &[OrderTerm]) -> bool
    ensures { result ≡ is_grouped select.now items.now orders.now }
{
    !select.groups.is_empty()
        || select.having.is_some()
        || some_call(items)
        || some_ordered_call(orders)
}

/// The expressions of a statement with their names resolved.
pub(crate) fn terms_of(
    alloc: Global,
    known: &[KnownColumn],
    select: &Select,
) -> Result<Terms, AllocError>
    requires { length known.now < 2 ^ 32 }
    ensures { IfOk result (λ made. made ≡ terms_of known.now select.now) }
{
    let items = item_terms(alloc, known, &select.items)?;
    let keys = key_columns(alloc, known, select.groups.as_slice())?;
    let havings = having_terms(alloc, known, &select.having)?;
    let list = item_list(&select.items);
    let orders = order_terms(alloc, known, list, select.orders.as_slice())?;
    let grouped = is_grouped(select, items.as_slice(), orders.as_slice());
    let star = star_of(&select.items);
    let distinct = select.distinct;
    Ok(Terms {
        distinct,
        grouped,
        star,
        items,
        keys,
        havings,
        orders,
    })
}
