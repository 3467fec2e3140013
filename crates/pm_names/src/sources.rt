//! The entries of FROM: their tables, their aliases, and their columns.
ghost use Rattle.std.specs.Prelude.{◌≡◌, ◌++◌, ◌+◌, ◌*◌, ◌<◌, ◌≤◌, ◌^◌, length, map, nat_eq, slice_get, IfOk, OnOk};
ghost use Rattle.std.specs.List.{list_any, find, position, position_or_len};
ghost use Rattle.std.specs.Option.{option_copied};
ghost use Rattle.pm_names.specs.Breaches.{verdict};
ghost use Rattle.pm_names.specs.Sources.{alias_of, is_named, has_alias, source_breaches, from_breaches, place_in, table_places, table_if, tables_at, query_source, known_column, source_columns, known_columns, known_at};
ghost use Rattle.pm_names.specs.Breaches.{added};
ghost use Rattle.pm_plan.specs.Kinds.{columns_or_none};

use crate::fault::BindBad;
use crate::terms::{KnownColumn, KnownColumns};
use pm_query::{QuerySource, QuerySources, QueryTable, QueryTables};
use pm_syntax::{PlacedName, Source};
use pm_values::{ColumnDecl, Columns, TableDecl};
use std::alloc::{AllocError, Global};

/// The most sources of a statement.
const MOST_SOURCES: usize = 8;

// The name that the source goes by.
fn alias_of(source: &Source) -> &PlacedName
    ensures { result.now ≡ alias_of source.now }
{
    match &source.alias {
        Some(alias) => alias,
        None => &source.table,
    }
}

fn place_of(schema: &[TableDecl], text: &[u8]) -> Option<usize>
    ensures { result ≡ position (is_named text.now) schema.now }
{
    schema.iter().position(|decl| decl.name().bytes() == text)
}

// The position in the schema of the source's table, the number of tables where there is none.
#[tactic(auto, using(crate::proofs::Positions::position_is, crate::proofs::Positions::position_within))]
fn place_in(schema: &[TableDecl], source: &Source) -> usize
    ensures value { result ≡ place_in schema.now source.now }
    ensures within { result ≤ length schema.now }
{
    place_of(schema, source.table.text.bytes()).unwrap_or(schema.len())
}

fn has_table(schema: &[TableDecl], source: &Source) -> bool
    ensures { result ≡ list_any (is_named source.now.table.text) schema.now }
{
    schema
        .iter()
        .any(|decl| decl.name().bytes() == source.table.text.bytes())
}

fn has_alias(sources: &[Source], text: &[u8]) -> bool
    ensures { result ≡ has_alias sources.now text.now }
{
    sources
        .iter()
        .any(|source| alias_of(source).text.bytes() == text)
}

fn check_source(
    schema: &[TableDecl],
    sources: &[Source],
    i: usize,
    source: &Source,
) -> Result<(), BindBad>
    requires { i ≤ length sources.now }
    ensures { result ≡ verdict (source_breaches schema.now sources.now i source.now) }
{
    if i == MOST_SOURCES {
        return Err(BindBad::TooManyTables(source.table.at));
    }
    if !has_table(schema, source) {
        return Err(BindBad::NoTable(source.table.at));
    }
    let alias = alias_of(source);
    if has_alias(&sources[..i], alias.text.bytes()) {
        return Err(BindBad::DoubleAlias(alias.at));
    }
    Ok(())
}

// Whether FROM keeps its rules.
pub fn check_sources(schema: &[TableDecl], sources: &[Source]) -> Result<(), BindBad>
    ensures { result ≡ verdict (from_breaches schema.now sources.now) }
{
    'sources: for (i, source) in sources.iter().enumerate() {
        check_source(schema, sources, i, source)?;
    }
    Ok(())
}

fn table_of<'a>(schema: &'a [TableDecl], text: &[u8]) -> Option<&'a TableDecl>
    ensures { option_copied result ≡ find (is_named text.now) schema.now }
{
    schema.iter().find(|decl| decl.name().bytes() == text)
}

// The columns of the source's table.
fn columns_of<'a>(schema: &'a [TableDecl], source: &Source) -> &'a [ColumnDecl]
    ensures value { result.now ≡ columns_or_none (find (is_named source.now.table.text) schema.now) }
    ensures narrow { length result.now ≤ 64 }
{
    match table_of(schema, source.table.text.bytes()) {
        Some(decl) => decl.columns().as_slice(),
        None => &[],
    }
}

/// How many columns the sources have.
pub fn width(schema: &[TableDecl], sources: &[Source]) -> usize
    requires { length sources.now ≤ 8 }
    ensures value { result ≡ length (known_columns schema.now sources.now) }
    ensures narrow { result ≤ 512 }
{
    let mut width = 0;
    for source in sources {
        width += columns_of(schema, source).len();
    }
    width
}

fn known_column(
    alloc: Global,
    alias: &PlacedName,
    column: &ColumnDecl,
) -> Result<KnownColumn, AllocError>
    ensures { IfOk result (λ made. made ≡ known_column alias.now.text column.now) }
{
    let alias = alias.text.copy(alloc)?;
    let name = column.name.copy(alloc)?;
    let kind = column.kind;
    Ok(KnownColumn { alias, name, kind })
}

// Puts the columns of a source at the end.
fn push_columns(
    alloc: Global,
    known: &mut KnownColumns,
    schema: &[TableDecl],
    source: &Source,
) -> Result<(), AllocError>
    ensures pushed { OnOk result (known.new ≡ known.old ++ source_columns schema.now source.now) }
    ensures narrow { length (source_columns schema.now source.now) ≤ 64 }
{
    let alias = alias_of(source);
    let columns = columns_of(schema, source);
    for column in columns {
        known.push(known_column(alloc, alias, column)?)?;
    }
    Ok(())
}

/// The columns of the sources, in order.
pub fn known_columns(
    alloc: Global,
    schema: &[TableDecl],
    sources: &[Source],
) -> Result<KnownColumns, AllocError>
    ensures value { IfOk result (λ made. made ≡ known_columns schema.now sources.now) }
    ensures narrow { IfOk result (λ made. length made ≤ 64 * length sources.now) }
{
    let mut known = KnownColumns::new(alloc);
    for source in sources {
        push_columns(alloc, &mut known, schema, source)?;
    }
    Ok(known)
}

/// The columns that are known in the ON of the source at this position: those of the sources up to it.
#[tactic(auto, using(crate::proofs::Prefixes::known_prefix, crate::proofs::Prefixes::known_within))]
pub fn known_at<'a>(
    schema: &[TableDecl],
    sources: &[Source],
    known: &'a [KnownColumn],
    i: usize,
) -> &'a [KnownColumn]
    requires few { length sources.now ≤ 8 }
    requires within { i < length sources.now }
    requires known { known.now ≡ known_columns schema.now sources.now }
    ensures value { result.now ≡ known_at schema.now sources.now i }
    ensures narrow { length result.now ≤ length known.now }
{
    let end = width(schema, &sources[..i + 1]);
    &known[..end]
}

fn has_number(numbers: &[u32], number: u32) -> bool
    ensures { result ≡ list_any (λ other. nat_eq other number) numbers.now }
{
    numbers.iter().any(|other| *other == number)
}

/// Puts a number at the end, where it is not in the list.
pub fn push_new(numbers: &mut Columns, number: u32) -> Result<(), AllocError>
    ensures { OnOk result (numbers.new ≡ added nat_eq numbers.old number) }
{
    if has_number(numbers.as_slice(), number) {
        return Ok(());
    }
    numbers.push(number)
}

/// The tables of the sources, each once, by their positions in the schema.
pub fn places(
    alloc: Global,
    schema: &[TableDecl],
    sources: &[Source],
) -> Result<Columns, AllocError>
    requires { length schema.now < 2 ^ 32 }
    ensures value { IfOk result (λ made. made ≡ table_places schema.now sources.now) }
    ensures few { IfOk result (λ made. length made ≤ length sources.now) }
{
    let mut places = Columns::new(alloc);
    for source in sources {
        let place = place_in(schema, source);
        push_new(&mut places, place as u32)?;
    }
    Ok(places)
}

fn push_table(
    alloc: Global,
    tables: &mut QueryTables,
    schema: &[TableDecl],
    place: u32,
) -> Result<(), AllocError>
    ensures { OnOk result (tables.new ≡ tables.old ++ table_if place (slice_get schema.now place)) }
{
    match sqlite_items::at(schema, place as usize) {
        None => Ok(()),
        Some(decl) => {
            let decl = decl.copy(alloc)?;
            tables.push(QueryTable { place, decl })
        }
    }
}

/// The tables at these positions of the schema.
pub fn tables(
    alloc: Global,
    schema: &[TableDecl],
    places: &[u32],
) -> Result<QueryTables, AllocError>
    ensures { IfOk result (λ made. made ≡ tables_at schema.now places.now) }
{
    let mut tables = QueryTables::new(alloc);
    for place in places {
        push_table(alloc, &mut tables, schema, *place)?;
    }
    Ok(tables)
}

fn position_of(places: &[u32], place: usize) -> Option<usize>
    ensures { result ≡ position (nat_eq place) places.now }
{
    places.iter().position(|other| place == *other as usize)
}

#[tactic(auto, using(crate::proofs::Positions::position_is, crate::proofs::Positions::position_within))]
fn position_in(places: &[u32], place: usize) -> usize
    ensures value { result ≡ position_or_len (nat_eq place) places.now }
    ensures within { result ≤ length places.now }
{
    position_of(places, place).unwrap_or(places.len())
}

fn query_source(
    alloc: Global,
    schema: &[TableDecl],
    places: &[u32],
    source: &Source,
) -> Result<QuerySource, AllocError>
    requires { length places.now < 2 ^ 32 }
    ensures { IfOk result (λ made. made ≡ query_source schema.now places.now source.now) }
{
    let table = position_in(places, place_in(schema, source)) as u32;
    let alias = alias_of(source).text.copy(alloc)?;
    let left = source.left;
    Ok(QuerySource { table, alias, left })
}

/// The sources, with their tables by position in this list.
pub fn query_sources(
    alloc: Global,
    schema: &[TableDecl],
    places: &[u32],
    sources: &[Source],
) -> Result<QuerySources, AllocError>
    requires { length places.now < 2 ^ 32 }
    ensures { IfOk result (λ made. made ≡ map (query_source schema.now places.now) sources.now) }
{
    let mut made = QuerySources::new(alloc);
    for source in sources {
        let next = query_source(alloc, schema, places, source)?;
        made.push(next)?;
    }
    Ok(made)
}
