//! The rules of grouping, and the row that is selected from.
ghost use Rattle.std.specs.Prelude.{◌≡◌, fold, nat_eq, IfOk, OnOk};
ghost use Rattle.std.specs.List.{flat_map, list_any};
ghost use Rattle.pm_query.specs.Bound.{same_aggregate};
ghost use Rattle.pm_names.specs.Breaches.{verdict, added};
ghost use Rattle.pm_binder.specs.Grouping.{is_outside, ungrouped, same_term, is_selected, order_faults, item_faults, group_faults, grouping_breaches, calls_in, placed_calls, ordered_calls, calls_of, shape_of};

use crate::terms::{OrderTerm, Terms};
use pm_names::{BindBad, PlacedTerm, RowShape, Term, same_aggregate};
use pm_plan::{Aggregate, Aggregates};
use pm_values::Columns;
use std::alloc::{AllocError, Global};

fn is_key(keys: &[u32], column: u32) -> bool
    ensures { result ≡ list_any (nat_eq column) keys.now }
{
    keys.iter().any(|key| column == *key)
}

// Whether it is a column that is none of the keys.
fn is_outside(keys: &[u32], term: Term) -> bool
    ensures { result ≡ is_outside keys.now term }
{
    match term {
        Term::Column(column) => !is_key(keys, column),
        Term::Call(_) => false,
    }
}

fn check_term(keys: &[u32], placed: &PlacedTerm) -> Result<(), BindBad>
    ensures { result ≡ verdict (ungrouped keys.now placed.now) }
{
    if is_outside(keys, placed.term) {
        return Err(BindBad::NotGrouped(placed.at));
    }
    Ok(())
}

fn check_terms(keys: &[u32], terms: &[PlacedTerm]) -> Result<(), BindBad>
    ensures { result ≡ verdict (flat_map (ungrouped keys.now) terms.now) }
{
    for placed in terms {
        check_term(keys, placed)?;
    }
    Ok(())
}

fn same_term(a: Term, b: Term) -> bool
    ensures { result ≡ same_term a b }
{
    match (a, b) {
        (Term::Column(a), Term::Column(b)) => a == b,
        (Term::Call(a), Term::Call(b)) => same_aggregate(a, b),
        _ => false,
    }
}

fn is_selected(items: &[PlacedTerm], term: Term) -> bool
    ensures { result ≡ is_selected items.now term }
{
    items.iter().any(|placed| same_term(term, placed.term))
}

fn check_order(terms: &Terms, order: &OrderTerm) -> Result<(), BindBad>
    ensures { result ≡ verdict (order_faults terms.now order.now) }
{
    if terms.grouped && is_outside(terms.keys.as_slice(), order.term) {
        return Err(BindBad::NotGrouped(order.at));
    }
    if terms.distinct && !is_selected(terms.items.as_slice(), order.term) {
        return Err(BindBad::NotSelected(order.at));
    }
    Ok(())
}

fn check_orders(terms: &Terms, orders: &[OrderTerm]) -> Result<(), BindBad>
    ensures { result ≡ verdict (flat_map (order_faults terms.now) orders.now) }
{
    for order in orders {
        check_order(terms, order)?;
    }
    Ok(())
}

fn check_items(terms: &Terms) -> Result<(), BindBad>
    ensures { result ≡ verdict (item_faults terms.now terms.now.star) }
{
    match terms.star {
        Some(at) => Err(BindBad::NotGrouped(at)),
        None => check_terms(terms.keys.as_slice(), terms.items.as_slice()),
    }
}

fn check_groups(terms: &Terms) -> Result<(), BindBad>
    ensures { result ≡ verdict (group_faults terms.now) }
{
    if terms.grouped {
        check_items(terms)?;
        check_terms(terms.keys.as_slice(), terms.havings.as_slice())?;
    }
    Ok(())
}

/// Whether the expressions keep the rules of grouping and of DISTINCT.
pub(crate) fn check_grouping(terms: &Terms) -> Result<(), BindBad>
    ensures { result ≡ verdict (grouping_breaches terms.now) }
{
    check_groups(terms)?;
    check_orders(terms, terms.orders.as_slice())
}

fn has_call(calls: &[Aggregate], call: Aggregate) -> bool
    ensures { result ≡ list_any (λ other. same_aggregate other call) calls.now }
{
    calls.iter().any(|other| same_aggregate(*other, call))
}

// Puts an aggregate at the end, where it is not in the list.
fn push_call(calls: &mut Aggregates, call: Aggregate) -> Result<(), AllocError>
    ensures { OnOk result (calls.new ≡ added same_aggregate calls.old call) }
{
    if has_call(calls.as_slice(), call) {
        return Ok(());
    }
    calls.push(call)
}

fn push_term(calls: &mut Aggregates, term: Term) -> Result<(), AllocError>
    ensures { OnOk result (calls.new ≡ fold (added same_aggregate) calls.old (calls_in term)) }
{
    match term {
        Term::Column(_) => Ok(()),
        Term::Call(call) => push_call(calls, call),
    }
}

fn push_placed(calls: &mut Aggregates, terms: &[PlacedTerm]) -> Result<(), AllocError>
    ensures { OnOk result (calls.new ≡ fold (added same_aggregate) calls.old (placed_calls terms.now)) }
{
    for placed in terms {
        push_term(calls, placed.term)?;
    }
    Ok(())
}

fn push_ordered(calls: &mut Aggregates, orders: &[OrderTerm]) -> Result<(), AllocError>
    ensures { OnOk result (calls.new ≡ fold (added same_aggregate) calls.old (ordered_calls orders.now)) }
{
    for order in orders {
        push_term(calls, order.term)?;
    }
    Ok(())
}

// The different aggregates, in the order of the text.
fn calls_of(alloc: Global, terms: &Terms) -> Result<Aggregates, AllocError>
    ensures { IfOk result (λ made. made ≡ calls_of terms.now) }
{
    let mut calls = Aggregates::new(alloc);
    push_placed(&mut calls, terms.items.as_slice())?;
    push_placed(&mut calls, terms.havings.as_slice())?;
    push_ordered(&mut calls, terms.orders.as_slice())?;
    Ok(calls)
}

/// The row that is selected from.
pub(crate) fn shape_of(alloc: Global, terms: &Terms) -> Result<RowShape, AllocError>
    ensures { IfOk result (λ made. made ≡ shape_of terms.now) }
{
    let grouped = terms.grouped;
    let keys = Columns::from_slice(alloc, terms.keys.as_slice())?;
    let calls = calls_of(alloc, terms)?;
    Ok(RowShape {
        grouped,
        keys,
        calls,
    })
}
