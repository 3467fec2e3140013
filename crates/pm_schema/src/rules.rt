//! The rules of names, in the order of the rules, and which breach comes first.
ghost use Rattle.std.specs.Prelude.{◌≡◌, fold};
ghost use Rattle.std.specs.Option.{option_copied};
ghost use Rattle.pm_schema.specs.Rules.{has, column_named, is_faulty, breach_at, breaches, key_breaches, order_breaches, rank, earlier};

use crate::tree::{ColumnText, TableText};
use crate::walk::first;
use pm_grammar::{PlacedName, PlacedNames};

/// A rule that the tables of a schema keep.
#[derive(Clone, Copy, Debug, PartialEq, Eq)]
pub enum Rule {
    DoubleTable,
    DoubleColumn,
    KeyColumn,
    NullKey,
    RefTable,
    RefColumn,
    RefShape,
}

/// What may be wrong with a name in a list: an earlier one is the same; or it is no column of the table, or an earlier
/// one is the same; or its column is nullable.
#[derive(Clone, Copy, Debug, PartialEq, Eq)]
pub enum Fault {
    Repeated,
    NoNewColumn,
    Nullable,
}

/// A rule, and the place of a name that breaks it.
#[derive(Clone, Copy, Debug, PartialEq, Eq)]
pub struct Breach {
    pub at: u64,
    pub rule: Rule,
}

/// What has a name.
pub(crate) trait Named {
    ghost use Rattle.pm_grammar.specs.declared.names.PlacedName.{PlacedName};

    /// The name.
    ghost name_of: { Self → PlacedName };

    fn name(&self) -> &PlacedName
        ensures { result.now ≡ name_of self.now };
}

impl Named for TableText {
    ghost use Rattle.pm_schema.specs.Rules.{name_of_table};

    ghost name_of = { name_of_table };

    fn name(&self) -> &PlacedName {
        &self.name
    }
}

impl Named for ColumnText {
    ghost use Rattle.pm_schema.specs.Rules.{name_of_column};

    ghost name_of = { name_of_column };

    fn name(&self) -> &PlacedName {
        &self.name
    }
}

impl Named for PlacedName {
    ghost use Rattle.pm_schema.specs.Rules.{itself};

    ghost name_of = { itself };

    fn name(&self) -> &PlacedName {
        self
    }
}

// Whether one of these has the name.
pub(crate) fn has<N: Named>(items: &[N], text: &[u8]) -> bool
    ensures { result ≡ has N.name_of items.now text.now }
{
    items.iter().any(|item| item.name().text.bytes() == text)
}

// The first column of this name.
pub(crate) fn column_named<'a>(columns: &'a [ColumnText], text: &[u8]) -> Option<&'a ColumnText>
    ensures { option_copied result ≡ column_named columns.now text.now }
{
    columns
        .iter()
        .find(|column| column.name.text.bytes() == text)
}

// Whether a name after these has the fault.
fn is_faulty<N: Named>(
    fault: Fault,
    columns: &[ColumnText],
    before: &[N],
    name: &PlacedName,
) -> bool
    ensures { result ≡ is_faulty N.name_of fault columns.now before.now name.now }
{
    let text = name.text.bytes();
    match fault {
        Fault::Repeated => has(before, text),
        Fault::NoNewColumn => !has(columns, text) || has(before, text),
        Fault::Nullable => match column_named(columns, text) {
            None => false,
            Some(column) => column.nullable,
        },
    }
}

fn rank(rule: Rule) -> u8
    ensures { result ≡ rank rule }
{
    match rule {
        Rule::DoubleTable => 0,
        Rule::DoubleColumn => 1,
        Rule::KeyColumn => 2,
        Rule::NullKey => 3,
        Rule::RefTable => 4,
        Rule::RefColumn => 5,
        Rule::RefShape => 6,
    }
}

// The earlier of two breaches: the lesser place, and at one place the earlier rule.
fn earlier(found: Option<Breach>, next: Breach) -> Option<Breach>
    ensures { result ≡ earlier found next }
{
    match found {
        None => Some(next),
        Some(old) => {
            if next.at < old.at || next.at == old.at && rank(next.rule) < rank(old.rule) {
                Some(next)
            } else {
                Some(old)
            }
        }
    }
}

// The first breach, of those found and of this one, if it is one.
pub(crate) fn noted(found: Option<Breach>, broken: bool, at: u64, rule: Rule) -> Option<Breach>
    ensures { result ≡ fold earlier found (breach_at broken at rule) }
{
    if broken {
        earlier(found, Breach { at, rule })
    } else {
        found
    }
}

// The first breach, of those found and of this rule by names with this fault.
#[tactic(auto, using(crate::proofs::Breaches::breaches_step, crate::proofs::Breaches::breaches_end))]
pub(crate) fn check<N: Named>(
    rule: Rule,
    fault: Fault,
    columns: &[ColumnText],
    items: &[N],
    so_far: Option<Breach>,
) -> Option<Breach>
    ensures { result ≡ fold earlier so_far (breaches N.name_of rule fault columns.now items.now) }
{
    let mut found = so_far;
    let mut rest = items;
    let mut i = 0;
    'items: while let Some((item, after)) = first(rest) {
        let name = item.name();
        let broken = is_faulty(fault, columns, &items[..i], name);
        found = noted(found, broken, name.at, rule);
        i += 1;
        rest = after;
    }
    found
}

// The first breach, of those found and of the rules of KEY.
#[tactic(auto, using(crate::proofs::Breaches::folds))]
pub(crate) fn check_key(
    columns: &[ColumnText],
    key: &Option<PlacedNames>,
    found: Option<Breach>,
) -> Option<Breach>
    ensures { result ≡ fold earlier found (key_breaches columns.now key.now) }
{
    match key {
        None => found,
        Some(names) => {
            let names = names.as_slice();
            let found = check(Rule::KeyColumn, Fault::NoNewColumn, columns, names, found);
            check(Rule::NullKey, Fault::Nullable, columns, names, found)
        }
    }
}

// The first breach, of those found and of the rule of ORDER.
pub(crate) fn check_order(
    columns: &[ColumnText],
    order: &Option<PlacedNames>,
    found: Option<Breach>,
) -> Option<Breach>
    ensures { result ≡ fold earlier found (order_breaches columns.now order.now) }
{
    match order {
        None => found,
        Some(names) => check(
            Rule::KeyColumn,
            Fault::NoNewColumn,
            columns,
            names.as_slice(),
            found,
        ),
    }
}
