//! The rules of references, and the first breach of a schema.
ghost use Rattle.std.specs.Prelude.{◌≡◌, fold};
ghost use Rattle.std.specs.Option.{option_copied};
ghost use Rattle.std.specs.List.{list_all};
ghost use Rattle.pm_schema.specs.Rules.{earlier, has, itself, column_named};
ghost use Rattle.pm_schema.specs.References.{table_named, same_kind, may_refer, may_all_refer, are_key, has_shape, name_breaches, reference_breaches, all_reference_breaches, table_breaches, first_breach};

use crate::rules::{Breach, Fault, Rule, check, check_key, check_order, column_named, has, noted};
use crate::tree::{ColumnText, ReferenceText, TableText};
use crate::walk::first;
use pm_grammar::{PlacedName, PlacedNames};
use pm_values::Kind;

// The first table of this name.
pub(crate) fn table_named<'a>(tables: &'a [TableText], text: &[u8]) -> Option<&'a TableText>
    ensures { option_copied result ≡ table_named tables.now text.now }
{
    tables.iter().find(|table| table.name.text.bytes() == text)
}

fn same_kind(left: Kind, right: Kind) -> bool
    ensures { result ≡ same_kind left right }
{
    match (left, right) {
        (Kind::Int, Kind::Int) => true,
        (Kind::Num(scale), Kind::Num(other)) => scale == other,
        (Kind::Text, Kind::Text) => true,
        _ => false,
    }
}

// Whether a column may refer to another.
fn may_refer(column: Option<&ColumnText>, key: Option<&ColumnText>) -> bool
    ensures { result ≡ may_refer (option_copied column.entry) (option_copied key.entry) }
{
    match (column, key) {
        (Some(column), Some(key)) => same_kind(column.kind, key.kind) && !column.nullable,
        _ => false,
    }
}

// Whether the column of this name may refer to that of the other.
fn name_may_refer(
    columns: &[ColumnText],
    targets: &[ColumnText],
    name: &PlacedName,
    key: &PlacedName,
) -> bool
    ensures { result ≡ may_refer (column_named columns.now name.now.text) (column_named targets.now key.now.text) }
{
    may_refer(
        column_named(columns, name.text.bytes()),
        column_named(targets, key.text.bytes()),
    )
}

// Whether the lists have one length, and the column of each name may refer to the one beside it.
#[tactic(auto, using(crate::proofs::Breaches::pairs_step, crate::proofs::Breaches::pairs_refused, crate::proofs::Breaches::pairs_unlike, crate::proofs::Breaches::pairs_end))]
fn may_all_refer(
    columns: &[ColumnText],
    targets: &[ColumnText],
    names: &[PlacedName],
    keys: &[PlacedName],
) -> bool
    ensures { result ≡ may_all_refer columns.now targets.now names.now keys.now }
{
    let mut rest = names;
    let mut beside = keys;
    'names: while let Some((name, after)) = first(rest) {
        let Some((key, after_key)) = first(beside) else {
            return false;
        };
        if !name_may_refer(columns, targets, name, key) {
            return false;
        }
        rest = after;
        beside = after_key;
    }
    beside.is_empty()
}

// Whether each of the names is among the others.
fn all_among(names: &[PlacedName], others: &[PlacedName]) -> bool
    ensures { result ≡ list_all (λ name. has itself others.now name.text) names.now }
{
    names.iter().all(|name| has(others, name.text.bytes()))
}

// Whether the names are as a set the KEY.
fn are_key(key: &Option<PlacedNames>, names: &[PlacedName]) -> bool
    ensures { result ≡ are_key key.now names.now }
{
    match key {
        None => false,
        Some(key) => {
            let key = key.as_slice();
            all_among(names, key) && all_among(key, names)
        }
    }
}

// Whether a reference to this table has the shape of one.
fn has_shape(columns: &[ColumnText], target: &TableText, reference: &ReferenceText) -> bool
    ensures { result ≡ has_shape columns.now target.now reference.now }
{
    let keys = reference.keys.as_slice();
    let targets = target.body.columns.as_slice();
    may_all_refer(columns, targets, reference.columns.as_slice(), keys)
        && are_key(&target.body.key, keys)
}

// The first breach, of those found and of the names of a reference to this table.
#[tactic(auto, using(crate::proofs::Breaches::folds))]
fn check_names(
    columns: &[ColumnText],
    target: &TableText,
    reference: &ReferenceText,
    found: Option<Breach>,
) -> Option<Breach>
    ensures { result ≡ fold earlier found (name_breaches columns.now target.now reference.now) }
{
    let names = reference.columns.as_slice();
    let found = check(Rule::RefColumn, Fault::NoNewColumn, columns, names, found);
    let targets = target.body.columns.as_slice();
    let keys = reference.keys.as_slice();
    check(Rule::RefColumn, Fault::NoNewColumn, targets, keys, found)
}

// The first breach, of those found and of a reference that names this table.
#[tactic(auto, using(crate::proofs::Breaches::folds, crate::proofs::Breaches::none_first))]
fn check_reference(
    columns: &[ColumnText],
    reference: &ReferenceText,
    target: Option<&TableText>,
    found: Option<Breach>,
) -> Option<Breach>
    ensures { result ≡ fold earlier found (reference_breaches columns.now reference.now (option_copied target.entry)) }
{
    let at = reference.target.at;
    let Some(target) = target else {
        let found = noted(found, true, at, Rule::RefTable);
        let names = reference.columns.as_slice();
        return check(Rule::RefColumn, Fault::NoNewColumn, columns, names, found);
    };
    let named = check_names(columns, target, reference, None).is_none();
    let found = check_names(columns, target, reference, found);
    let broken = named && !has_shape(columns, target, reference);
    noted(found, broken, at, Rule::RefShape)
}

// The first breach, of those found and of the rules of references.
#[tactic(auto, using(crate::proofs::Breaches::references_step, crate::proofs::Breaches::references_end))]
fn check_references(
    tables: &[TableText],
    columns: &[ColumnText],
    references: &[ReferenceText],
    so_far: Option<Breach>,
) -> Option<Breach>
    ensures { result ≡ fold earlier so_far (all_reference_breaches tables.now columns.now references.now) }
{
    let mut found = so_far;
    let mut rest = references;
    'references: while let Some((reference, after)) = first(rest) {
        let target = table_named(tables, reference.target.text.bytes());
        found = check_reference(columns, reference, target, found);
        rest = after;
    }
    found
}

// The first breach, of those found and of a table's.
#[tactic(auto, using(crate::proofs::Breaches::folds))]
fn check_table(tables: &[TableText], table: &TableText, found: Option<Breach>) -> Option<Breach>
    ensures { result ≡ fold earlier found (table_breaches tables.now table.now) }
{
    let columns = table.body.columns.as_slice();
    let found = check(Rule::DoubleColumn, Fault::Repeated, &[], columns, found);
    let found = check_key(columns, &table.body.key, found);
    let found = check_order(columns, &table.body.order, found);
    check_references(tables, columns, table.body.references.as_slice(), found)
}

// The first breach of a rule.
#[tactic(auto, using(crate::proofs::Breaches::folds, crate::proofs::Breaches::tables_step, crate::proofs::Breaches::tables_end))]
pub(crate) fn first_breach(tables: &[TableText]) -> Option<Breach>
    ensures { result ≡ first_breach tables.now }
{
    let mut found = check(Rule::DoubleTable, Fault::Repeated, &[], tables, None);
    let mut rest = tables;
    'tables: while let Some((table, after)) = first(rest) {
        found = check_table(tables, table, found);
        rest = after;
    }
    found
}
