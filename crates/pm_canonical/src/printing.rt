ghost use Rattle.std.specs.Prelude.{◌≡◌, ◌++◌, OnOk, IfOk, string_bytes, map, codes, [], if◌then◌else◌, ◌==◌};
ghost use Rattle.std.specs.List.{flat_map};
ghost use Rattle.pm_canonical.specs.Canon.{canon_literal, canon_atom, canon_given, canon_item, canon_items, canon_source, join_words, canon_further, canon_sources, canon_condition, canon_list, canon, canon_key, joined, separated, negation, canon_comparison, canon_test, text_of, member_of, separator, is_wrapped};

use crate::numerals::put_number;
use crate::words::{comparison_word, put_column, put_expr};
use pm_lexer::{put_name, put_quoted};
use pm_syntax::{
    Atom, ColumnName, Item, Items, Literal, Literals, OrderItem, PlacedName, Select, Source, Test,
};
use pm_values::{Comparison, Txt};
use std::alloc::{AllocError, Global};

#[tactic(auto, unfolding(crate::specs::Canon::canon_literal))]
fn put_literal(out: &mut String, literal: &Literal) -> Result<(), AllocError>
    ensures { OnOk result (string_bytes out.new ≡ string_bytes out.old ++ canon_literal literal.now) }
{
    match literal {
        Literal::Null => {
            out.push_str("NULL")?;
            Ok(())
        }
        Literal::Number { value, decimals } => put_number(out, *value, *decimals),
        Literal::Text(text) => put_quoted(out, '\'', text.as_str()),
    }
}

fn put_atom(out: &mut String, atom: &Atom) -> Result<(), AllocError>
    ensures { OnOk result (string_bytes out.new ≡ string_bytes out.old ++ canon_atom atom.now) }
{
    match atom {
        Atom::Expr(expr) => put_expr(out, expr),
        Atom::Literal(literal) => put_literal(out, literal),
    }
}

fn put_negation(out: &mut String, negated: bool) -> Result<(), AllocError>
    ensures { OnOk result (string_bytes out.new ≡ string_bytes out.old ++ negation negated) }
{
    if negated {
        out.push_str("NOT ")?;
    }
    Ok(())
}

#[tactic(auto, unfolding(crate::specs::Canon::canon_given))]
fn put_given(out: &mut String, given: &Option<PlacedName>) -> Result<(), AllocError>
    ensures { OnOk result (string_bytes out.new ≡ string_bytes out.old ++ canon_given given.now) }
{
    match given {
        None => Ok(()),
        Some(name) => {
            out.push_str(" AS ")?;
            put_name(out, &name.text)
        }
    }
}

/// What an entry of a list with commas is in canonical text.
trait Canon {
    ghost use Rattle.std.specs.Prelude.{List, ℕ};

    ghost canon: { Self → List ℕ };

    fn put(&self, out: &mut String) -> Result<(), AllocError>
        ensures { OnOk result (string_bytes out.new ≡ string_bytes out.old ++ canon self.now) };
}

impl Canon for Literal {
    ghost use Rattle.pm_canonical.specs.Canon.{canon_literal};

    ghost canon = { canon_literal };

    fn put(&self, out: &mut String) -> Result<(), AllocError> {
        put_literal(out, self)
    }
}

impl Canon for ColumnName {
    ghost use Rattle.pm_canonical.specs.Canon.{canon_column};

    ghost canon = { canon_column };

    fn put(&self, out: &mut String) -> Result<(), AllocError> {
        put_column(out, self)
    }
}

#[tactic(auto, unfolding(crate::specs::Canon::canon_item))]
fn put_item(out: &mut String, item: &Item) -> Result<(), AllocError>
    ensures { OnOk result (string_bytes out.new ≡ string_bytes out.old ++ canon_item item.now) }
{
    put_expr(out, &item.expr)?;
    put_given(out, &item.given)
}

impl Canon for Item {
    ghost use Rattle.pm_canonical.specs.Canon.{canon_item};

    ghost canon = { canon_item };

    fn put(&self, out: &mut String) -> Result<(), AllocError> {
        put_item(out, self)
    }
}

#[tactic(auto, unfolding(crate::specs::Canon::canon_key))]
fn put_key(out: &mut String, key: &OrderItem) -> Result<(), AllocError>
    ensures { OnOk result (string_bytes out.new ≡ string_bytes out.old ++ canon_key key.now) }
{
    put_expr(out, &key.expr)?;
    if key.descending {
        out.push_str(" DESC")?;
    }
    Ok(())
}

impl Canon for OrderItem {
    ghost use Rattle.pm_canonical.specs.Canon.{canon_key};

    ghost canon = { canon_key };

    fn put(&self, out: &mut String) -> Result<(), AllocError> {
        put_key(out, self)
    }
}

// An entry after so many others.
fn put_entry<T: Canon>(out: &mut String, i: usize, entry: &T) -> Result<(), AllocError>
    ensures { OnOk result (string_bytes out.new ≡ string_bytes out.old ++ separated (codes ", ") i (T.canon entry.now)) }
{
    if i > 0 {
        out.push_str(", ")?;
    }
    entry.put(out)
}

// The entries, with a comma and a blank between them.
fn put_list<T: Canon>(out: &mut String, list: &[T]) -> Result<(), AllocError>
    ensures { OnOk result (string_bytes out.new ≡ string_bytes out.old ++ joined (codes ", ") (map T.canon list.now)) }
{
    'entries: for (i, entry) in list.iter().enumerate() {
        put_entry(out, i, entry)?;
    }
    Ok(())
}

// What stands before a member after so many others.
fn put_separator(out: &mut String, in_or: bool, i: usize) -> Result<(), AllocError>
    ensures { OnOk result (string_bytes out.new ≡ string_bytes out.old ++ (if i == 0 then [] else separator in_or)) }
{
    if i > 0 {
        out.push_str(if in_or { " OR " } else { " AND " })?;
    }
    Ok(())
}

// Whether a member of an OR or an AND list stands in parentheses.
fn is_wrapped(in_or: bool, test: &Test) -> bool
    ensures { result ≡ is_wrapped in_or (text_of test.now) }
{
    match test {
        Test::Any(_) => true,
        Test::All(_) => !in_or,
        _ => false,
    }
}

#[cycle(put_test)]
fn put_member(out: &mut String, in_or: bool, test: &Test) -> Result<(), AllocError>
    ensures { OnOk result (string_bytes out.new ≡ string_bytes out.old ++ member_of in_or (text_of test.now)) }
{
    if is_wrapped(in_or, test) {
        out.push_str("(")?;
        put_test(out, test)?;
        out.push_str(")")?;
        return Ok(());
    }
    put_test(out, test)
}

#[cycle(put_test)]
fn put_members(out: &mut String, in_or: bool, list: &[Test]) -> Result<(), AllocError>
    ensures { OnOk result (string_bytes out.new ≡ string_bytes out.old ++ joined (separator in_or) (map (member_of in_or) (map text_of list.now))) }
{
    'members: for (i, member) in list.iter().enumerate() {
        put_separator(out, in_or, i)?;
        put_member(out, in_or, member)?;
    }
    Ok(())
}

#[cycle(put_test)]
fn put_test(out: &mut String, test: &Test) -> Result<(), AllocError>
    ensures { OnOk result (string_bytes out.new ≡ string_bytes out.old ++ canon_test test.now) }
{
    match test {
        Test::Any(members) => put_members(out, true, members.as_slice()),
        Test::All(members) => put_members(out, false, members.as_slice()),
        Test::Not(part) => {
            out.push_str("NOT ")?;
            put_member(out, false, part.get())
        }
        Test::Compare {
            how,
            left,
            right,
            ..
        } => put_compare(out, *how, left, right),
        Test::IsNull { of, negated } => put_null(out, of, *negated),
        Test::OneOf {
            of,
            list,
            negated,
            ..
        } => put_in(out, of, *negated, list),
        Test::Between {
            of,
            low,
            high,
            negated,
            ..
        } => put_between(out, of, *negated, low, high),
    }
}

fn put_compare(
    out: &mut String,
    how: Comparison,
    left: &Atom,
    right: &Atom,
) -> Result<(), AllocError>
    ensures { OnOk result (string_bytes out.new ≡ string_bytes out.old ++ (canon_atom left.now ++ canon_comparison how ++ canon_atom right.now)) }
{
    put_atom(out, left)?;
    out.push_str(comparison_word(how))?;
    put_atom(out, right)
}

fn put_null(out: &mut String, of: &Atom, negated: bool) -> Result<(), AllocError>
    ensures { OnOk result (string_bytes out.new ≡ string_bytes out.old ++ (canon_atom of.now ++ codes " IS " ++ negation negated ++ codes "NULL")) }
{
    put_atom(out, of)?;
    out.push_str(" IS ")?;
    put_negation(out, negated)?;
    out.push_str("NULL")?;
    Ok(())
}

fn put_in(out: &mut String, of: &Atom, negated: bool, list: &Literals) -> Result<(), AllocError>
    ensures { OnOk result (string_bytes out.new ≡ string_bytes out.old ++ (canon_atom of.now ++ codes " " ++ negation negated ++ codes "IN (" ++ joined (codes ", ") (map canon_literal list.now) ++ codes ")")) }
{
    put_atom(out, of)?;
    out.push_str(" ")?;
    put_negation(out, negated)?;
    out.push_str("IN (")?;
    put_list(out, list.as_slice())?;
    out.push_str(")")?;
    Ok(())
}

fn put_between(
    out: &mut String,
    of: &Atom,
    negated: bool,
    low: &Atom,
    high: &Atom,
) -> Result<(), AllocError>
    ensures { OnOk result (string_bytes out.new ≡ string_bytes out.old ++ (canon_atom of.now ++ codes " " ++ negation negated ++ codes "BETWEEN " ++ canon_atom low.now ++ codes " AND " ++ canon_atom high.now)) }
{
    put_atom(out, of)?;
    out.push_str(" ")?;
    put_negation(out, negated)?;
    out.push_str("BETWEEN ")?;
    put_atom(out, low)?;
    out.push_str(" AND ")?;
    put_atom(out, high)
}

#[tactic(auto, unfolding(crate::specs::Canon::canon_items))]
fn put_items(out: &mut String, items: &Items) -> Result<(), AllocError>
    ensures { OnOk result (string_bytes out.new ≡ string_bytes out.old ++ canon_items items.now) }
{
    match items {
        Items::All { .. } => {
            out.push_str("*")?;
            Ok(())
        }
        Items::List(list) => put_list(out, list.as_slice()),
    }
}

#[tactic(auto, unfolding(crate::specs::Canon::canon_source))]
fn put_source(out: &mut String, source: &Source) -> Result<(), AllocError>
    ensures { OnOk result (string_bytes out.new ≡ string_bytes out.old ++ canon_source source.now) }
{
    put_name(out, &source.table.text)?;
    put_given(out, &source.alias)
}

fn join_words(left: bool) -> &'static str
    ensures { result.now ≡ join_words left }
{
    if left { " LEFT JOIN " } else { " JOIN " }
}

// A source after others.
fn put_further(out: &mut String, source: &Source) -> Result<(), AllocError>
    ensures { OnOk result (string_bytes out.new ≡ string_bytes out.old ++ canon_further source.now.on source.now) }
{
    match &source.on {
        None => {
            out.push_str(", ")?;
            put_source(out, source)
        }
        Some(on) => {
            out.push_str(join_words(source.left))?;
            put_source(out, source)?;
            out.push_str(" ON ")?;
            put_test(out, on)
        }
    }
}

fn put_more_sources(out: &mut String, sources: &[Source]) -> Result<(), AllocError>
    ensures { OnOk result (string_bytes out.new ≡ string_bytes out.old ++ flat_map (λ s. canon_further s.on s) sources.now) }
{
    for source in sources {
        put_further(out, source)?;
    }
    Ok(())
}

fn put_sources(out: &mut String, sources: &[Source]) -> Result<(), AllocError>
    ensures { OnOk result (string_bytes out.new ≡ string_bytes out.old ++ canon_sources sources.now) }
{
    match sources {
        [] => Ok(()),
        [first, more @ ..] => {
            put_source(out, first)?;
            put_more_sources(out, more)
        }
    }
}

// A condition after its word, where there is one.
fn put_condition(out: &mut String, words: &str, cond: &Option<Test>) -> Result<(), AllocError>
    ensures { OnOk result (string_bytes out.new ≡ string_bytes out.old ++ canon_condition words.now cond.now) }
{
    match cond {
        None => Ok(()),
        Some(cond) => {
            out.push_str(words)?;
            put_test(out, cond)
        }
    }
}

// A list after its words, where it is not empty.
fn put_part<T: Canon>(out: &mut String, words: &str, list: &[T]) -> Result<(), AllocError>
    ensures { OnOk result (string_bytes out.new ≡ string_bytes out.old ++ canon_list words.now T.canon list.now) }
{
    match list {
        [] => Ok(()),
        _ => {
            out.push_str(words)?;
            put_list(out, list)
        }
    }
}

fn put_distinct(out: &mut String, distinct: bool) -> Result<(), AllocError>
    ensures { OnOk result (string_bytes out.new ≡ string_bytes out.old ++ (if distinct then codes "DISTINCT " else [])) }
{
    if distinct {
        out.push_str("DISTINCT ")?;
    }
    Ok(())
}

#[tactic(auto, unfolding(crate::specs::Canon::canon))]
fn put_select(out: &mut String, select: &Select) -> Result<(), AllocError>
    ensures { OnOk result (string_bytes out.new ≡ string_bytes out.old ++ canon select.now) }
{
    out.push_str("SELECT ")?;
    put_distinct(out, select.distinct)?;
    put_items(out, &select.items)?;
    out.push_str(" FROM ")?;
    put_sources(out, select.sources.as_slice())?;
    put_condition(out, " WHERE ", &select.filter)?;
    put_part(out, " GROUP BY ", select.groups.as_slice())?;
    put_condition(out, " HAVING ", &select.having)?;
    put_part(out, " ORDER BY ", select.orders.as_slice())
}

/// The canonical text of a statement: reserved words and function names in capitals, one space between tokens, and
/// parentheses only where a list stands in a list that binds as tight. The form is this project's own. It is read back
/// as the statement: `canonical_text_is_read_back`.
pub fn print(alloc: Global, select: &Select) -> Result<Txt, AllocError>
    ensures { IfOk result (λ text. text ≡ canon select.now) }
{
    let mut out = String::new(alloc);
    put_select(&mut out, select)?;
    Txt::new(alloc, out.as_str())
}
