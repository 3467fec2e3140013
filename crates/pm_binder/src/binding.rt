//! Binds a statement to a schema.
ghost use Rattle.std.specs.Prelude.{◌≡◌, ◌⊎◌, ◌+◌, ◌<◌, ◌≤◌, ◌^◌, length, IfOk, IsErrOf};
ghost use Rattle.pm_names.specs.declared.fault.BindBad.TheVariants as bad;
ghost use Rattle.pm_names.specs.Breaches.{verdict, outcome};
ghost use Rattle.pm_names.specs.Sources.{known_columns};
ghost use Rattle.pm_binder.specs.Bound.{test_breaches_if, on_breaches, ons_breaches, groups_breaches, text_breaches, having_of, outputs_of, orders_of, query_of, query, further_breaches, bound};
ghost use Rattle.pm_binder.specs.Grouping.{shape_of};
ghost use Rattle.pm_binder.specs.Laws.{IsFormed, AreTables, AsksForRowsOf};
ghost use Rattle.pm_query.specs.Bound.{IsBound};

use crate::conjuncts::conjuncts;
use crate::grouping::{check_grouping, shape_of};
use crate::joins::check_joins;
use crate::selection::{check_items, check_orders, heads_of, item_list, terms_of};
use crate::terms::{OrderTerm, Terms};
use pm_names::{
    BindBad, KnownColumn, PlacedTerm, RowShape, check_name, check_sources, check_test, condition,
    known_at, known_columns, places, position_in, query_sources, tables,
};
use pm_query::{Conjuncts, Query, QueryOrder, QueryOrders};
use pm_schema::Schema;
use pm_syntax::{ColumnName, Select, Source, Test};
use pm_values::{Columns, Cond, TableDecl};
use std::alloc::{AllocError, Global};

// A condition that may be left out.
fn check_test_if(known: &[KnownColumn], test: &Option<Test>) -> Result<(), BindBad>
    requires { length known.now < 2 ^ 32 }
    ensures { result ≡ verdict (test_breaches_if known.now test.now) }
{
    match test {
        None => Ok(()),
        Some(test) => check_test(known, test),
    }
}

// The ON of the source at this position.
fn check_on(
    schema: &[TableDecl],
    sources: &[Source],
    known: &[KnownColumn],
    i: usize,
    source: &Source,
) -> Result<(), BindBad>
    requires few { length sources.now ≤ 8 }
    requires within { i < length sources.now }
    requires known { known.now ≡ known_columns schema.now sources.now }
    requires narrow { length known.now < 2 ^ 32 }
    ensures { result ≡ verdict (on_breaches schema.now sources.now i source.now) }
{
    check_test_if(known_at(schema, sources, known, i), &source.on)
}

fn check_ons(schema: &[TableDecl], sources: &[Source], known: &[KnownColumn]) -> Result<(), BindBad>
    requires few { length sources.now ≤ 8 }
    requires known { known.now ≡ known_columns schema.now sources.now }
    requires narrow { length known.now < 2 ^ 32 }
    ensures { result ≡ verdict (ons_breaches schema.now sources.now) }
{
    'sources: for (i, source) in sources.iter().enumerate() {
        check_on(schema, sources, known, i, source)?;
    }
    Ok(())
}

fn check_groups(known: &[KnownColumn], groups: &[ColumnName]) -> Result<(), BindBad>
    ensures { result ≡ verdict (groups_breaches known.now groups.now) }
{
    for name in groups {
        check_name(known, name)?;
    }
    Ok(())
}

// The names and kinds of a statement, in the order of its text.
fn check_text(schema: &[TableDecl], known: &[KnownColumn], select: &Select) -> Result<(), BindBad>
    requires few { length select.now.sources ≤ 8 }
    requires known { known.now ≡ known_columns schema.now select.now.sources }
    requires narrow { length known.now < 2 ^ 32 }
    ensures { result ≡ verdict (text_breaches schema.now select.now) }
{
    let items = item_list(&select.items);
    check_items(known, items)?;
    check_ons(schema, select.sources.as_slice(), known)?;
    check_test_if(known, &select.filter)?;
    check_groups(known, select.groups.as_slice())?;
    check_test_if(known, &select.having)?;
    check_orders(known, items, select.orders.as_slice())
}

fn having_of(
    alloc: Global,
    known: &[KnownColumn],
    shape: &RowShape,
    having: &Option<Test>,
) -> Result<Option<Cond>, AllocError>
    requires known { length known.now < 2 ^ 32 }
    requires shape { length shape.now.keys + length shape.now.calls < 2 ^ 32 }
    ensures { IfOk result (λ made. made ≡ having_of known.now shape.now having.now) }
{
    match having {
        None => Ok(None),
        Some(test) => Ok(Some(condition(alloc, known, shape, test)?)),
    }
}

fn outputs_of(alloc: Global, shape: &RowShape, items: &[PlacedTerm]) -> Result<Columns, AllocError>
    requires { length shape.now.keys + length shape.now.calls < 2 ^ 32 }
    ensures { IfOk result (λ made. made ≡ outputs_of shape.now items.now) }
{
    let mut outputs = Columns::new(alloc);
    for placed in items {
        outputs.push(position_in(shape, placed.term))?;
    }
    Ok(outputs)
}

fn orders_of(
    alloc: Global,
    shape: &RowShape,
    terms: &[OrderTerm],
) -> Result<QueryOrders, AllocError>
    requires { length shape.now.keys + length shape.now.calls < 2 ^ 32 }
    ensures { IfOk result (λ made. made ≡ orders_of shape.now terms.now) }
{
    let mut orders = QueryOrders::new(alloc);
    for order in terms {
        let column = position_in(shape, order.term);
        let descending = order.descending;
        orders.push(QueryOrder { column, descending })?;
    }
    Ok(orders)
}

// The query of these parts.
fn assembled(
    alloc: Global,
    schema: &[TableDecl],
    select: &Select,
    known: &[KnownColumn],
    terms: &Terms,
    found: Conjuncts,
) -> Result<Query, AllocError>
    requires schema { length schema.now < 2 ^ 32 }
    requires few { length select.now.sources ≤ 8 }
    requires known { length known.now < 2 ^ 32 }
    requires shape { length (shape_of terms.now).keys + length (shape_of terms.now).calls < 2 ^ 32 }
    ensures { IfOk result (λ made. made ≡ query_of schema.now select.now known.now terms.now found) }
{
    let sources = select.sources.as_slice();
    let places = places(alloc, schema, sources)?;
    let shape = shape_of(alloc, terms)?;
    let having = having_of(alloc, known, &shape, &select.having)?;
    let outputs = outputs_of(alloc, &shape, terms.items.as_slice())?;
    let orders = orders_of(alloc, &shape, terms.orders.as_slice())?;
    let RowShape {
        grouped,
        keys,
        calls,
    } = shape;
    Ok(Query {
        tables: tables(alloc, schema, places.as_slice())?,
        sources: query_sources(alloc, schema, places.as_slice(), sources)?,
        conjuncts: found,
        grouped,
        keys,
        aggregates: calls,
        having,
        outputs,
        heads: heads_of(alloc, known, &select.items)?,
        orders,
        distinct: select.distinct,
    })
}

// The query of a statement whose FROM keeps its rules.
fn bound_further(alloc: Global, schema: &[TableDecl], select: &Select) -> Result<Query, BindBad>
    requires schema { length schema.now < 2 ^ 32 }
    requires few { length select.now.sources ≤ 8 }
    ensures { (result ≡ outcome (further_breaches schema.now select.now) (query schema.now select.now)) ⊎ IsErrOf result bad.Memory }
{
    let sources = select.sources.as_slice();
    let known = known_columns(alloc, schema, sources)?;
    let known = known.as_slice();
    check_text(schema, known, select)?;
    let terms = terms_of(alloc, known, select)?;
    check_grouping(&terms)?;
    let found = conjuncts(alloc, schema, sources, known, &select.filter)?;
    check_joins(schema, sources, found.as_slice())?;
    Ok(assembled(alloc, schema, select, known, &terms, found)?)
}

/// The query that a statement is bound to over the tables of a schema.
///
/// The rules are those of SQL's names, cut down, and the first breach in their order is the refusal. FROM from left to right:
/// at most eight sources (`TooManyTables`), each a table of the schema (`NoTable`) under an alias of its own
/// (`DoubleAlias`). Names and kinds in the order of the text, where an ON knows the sources up to its own: a name means one column
/// (`NoColumn`, `TwoColumns`), and what is compared or summed fits (`Kinds`). Grouping: a grouped query selects and orders
/// by keys and aggregates alone (`NotGrouped`), and one with DISTINCT orders by what it selects (`NotSelected`). Joins: each
/// source after the first has an equality of one of its columns with an earlier one (`NoJoinKey`), and a left join has
/// no other condition than these and those on its source alone (`LeftOn`). `Memory` is want of memory.
///
/// The query asks for the rows that the statement asks for, whatever stands in the tables.
pub fn bind(alloc: Global, select: &Select, schema: &Schema) -> Result<Query, BindBad>
    requires { length schema.now < 2 ^ 32 }
    ensures exact { (result ≡ bound select.now schema.now) ⊎ IsErrOf result bad.Memory }
    // Statements and schemas that are read from texts are such (`readings_are_formed`, `declared_are_tables`).
    ensures query { IfOk result (λ found. IsFormed select.now → AreTables schema.now → IsBound found) }
    ensures rows { IfOk result (λ found. IsFormed select.now → AsksForRowsOf select.now schema.now found) }
{
    let schema = schema.as_slice();
    check_sources(schema, select.sources.as_slice())?;
    bound_further(alloc, schema, select)
}
