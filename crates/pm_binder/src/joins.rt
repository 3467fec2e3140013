//! How the conjuncts join each source to those before it.
ghost use Rattle.std.specs.Prelude.{◌≡◌, ◌<◌, ◌≤◌, length, map, is_some, Some};
ghost use Rattle.std.specs.List.{list_any, list_all};
ghost use Rattle.pm_query.specs.Answer.{stands_in};
ghost use Rattle.pm_query.specs.Columns.{is_column, reads, operand_within, within};
ghost use Rattle.pm_query.specs.Pairs.{pair_at, equal_pair, pair_of};
ghost use Rattle.pm_names.specs.Breaches.{verdict};
ghost use Rattle.pm_binder.specs.Conjuncts.{is_pair, is_stray, joined_breaches, later_breaches, join_breaches};

use pm_names::{BindBad, width};
use pm_query::Conjunct;
use pm_syntax::Source;
use pm_values::{Comparison, Cond, Operand, TableDecl};

// The columns of a source stand from `from` up to below `to`.
#[derive(Clone, Copy)]
struct Span {
    from: usize,
    to: usize,
}

fn is_column(operand: &Operand) -> bool
    ensures { result ≡ is_column operand.now }
{
    match operand {
        Operand::Column { .. } => true,
        Operand::Literal { .. } => false,
    }
}

#[cycle(reads)]
fn some_reads(conds: &[Cond]) -> bool
    ensures { result ≡ list_any (λ m. m) (map reads conds.now) }
{
    'conds: for cond in conds {
        if reads(cond) {
            return true;
        }
    }
    false
}

// Whether some column is read.
#[cycle(reads)]
fn reads(cond: &Cond) -> bool
    ensures { result ≡ reads cond.now }
{
    match cond {
        Cond::All(members) => some_reads(members.as_slice()),
        Cond::Any(members) => some_reads(members.as_slice()),
        Cond::Not(part) => reads(part.get()),
        Cond::Compare { left, right, .. } => is_column(left) || is_column(right),
        Cond::IsNull(of) => is_column(of),
    }
}

fn operand_within(span: Span, operand: &Operand) -> bool
    ensures { result ≡ operand_within span.from span.to operand.now }
{
    match operand {
        Operand::Column { at, .. } => span.from <= *at as usize && (*at as usize) < span.to,
        Operand::Literal { .. } => true,
    }
}

#[cycle(within)]
fn all_within(span: Span, conds: &[Cond]) -> bool
    ensures { result ≡ list_all (λ m. m) (map (within span.from span.to) conds.now) }
{
    'conds: for cond in conds {
        if !within(span, cond) {
            return false;
        }
    }
    true
}

// Whether each column that is read is one of the source.
#[cycle(within)]
fn within(span: Span, cond: &Cond) -> bool
    ensures { result ≡ within span.from span.to cond.now }
{
    match cond {
        Cond::All(members) => all_within(span, members.as_slice()),
        Cond::Any(members) => all_within(span, members.as_slice()),
        Cond::Not(part) => within(span, part.get()),
        Cond::Compare { left, right, .. } => {
            operand_within(span, left) && operand_within(span, right)
        }
        Cond::IsNull(of) => operand_within(span, of),
    }
}

// Whether one of the columns is of an earlier source and the other of this one.
fn joins(span: Span, x: u32, y: u32) -> bool
    ensures { result ≡ is_some (pair_at span.from span.to x y) }
{
    let x = x as usize;
    let y = y as usize;
    x < span.from && span.from <= y && y < span.to || y < span.from && span.from <= x && x < span.to
}

fn equal_joins(span: Span, how: Comparison, left: &Operand, right: &Operand) -> bool
    ensures { result ≡ is_some (equal_pair span.from span.to how left.now right.now) }
{
    match (how, left, right) {
        (
            Comparison::Equal,
            Operand::Column { at: x, scale: s },
            Operand::Column { at: y, scale: t },
        ) => *s == *t && joins(span, *x, *y),
        _ => false,
    }
}

// Whether the condition is a join pair of the source.
fn is_join(span: Span, cond: &Cond) -> bool
    ensures { result ≡ is_some (pair_of span.from span.to cond.now) }
{
    match cond {
        Cond::Compare { how, left, right } => equal_joins(span, *how, left, right),
        Cond::All(_) => false,
        Cond::Any(_) => false,
        Cond::Not(_) => false,
        Cond::IsNull(_) => false,
    }
}

fn stands_in(position: usize, conjunct: &Conjunct) -> bool
    ensures { result ≡ stands_in (Some position) conjunct.now }
{
    match conjunct.on {
        Some(on) => position == on as usize,
        None => false,
    }
}

fn is_pair(left: bool, position: usize, span: Span, conjunct: &Conjunct) -> bool
    ensures { result ≡ is_pair left position span.from span.to conjunct.now }
{
    (!left || stands_in(position, conjunct)) && is_join(span, &conjunct.cond)
}

// Whether it is a condition of the source's ON that a left join cannot take.
fn is_stray(position: usize, span: Span, conjunct: &Conjunct) -> bool
    ensures { result ≡ is_stray position span.from span.to conjunct.now }
{
    let cond = &conjunct.cond;
    let own = reads(cond) && within(span, cond);
    stands_in(position, conjunct) && !(own || is_join(span, cond))
}

fn has_pair(left: bool, position: usize, span: Span, conjuncts: &[Conjunct]) -> bool
    ensures { result ≡ list_any (is_pair left position span.from span.to) conjuncts.now }
{
    conjuncts
        .iter()
        .any(|conjunct| is_pair(left, position, span, conjunct))
}

fn has_stray(position: usize, span: Span, conjuncts: &[Conjunct]) -> bool
    ensures { result ≡ list_any (is_stray position span.from span.to) conjuncts.now }
{
    conjuncts
        .iter()
        .any(|conjunct| is_stray(position, span, conjunct))
}

fn check_joined(
    source: &Source,
    position: usize,
    span: Span,
    conjuncts: &[Conjunct],
) -> Result<(), BindBad>
    ensures { result ≡ verdict (joined_breaches source.now position span.from span.to conjuncts.now) }
{
    if !has_pair(source.left, position, span, conjuncts) {
        return Err(BindBad::NoJoinKey(source.table.at));
    }
    if source.left && has_stray(position, span, conjuncts) {
        return Err(BindBad::LeftOn(source.table.at));
    }
    Ok(())
}

// The same of a source at this position, the first of which is not joined.
fn check_later(
    schema: &[TableDecl],
    sources: &[Source],
    conjuncts: &[Conjunct],
    i: usize,
    source: &Source,
) -> Result<(), BindBad>
    requires few { length sources.now ≤ 8 }
    requires within { i < length sources.now }
    ensures { result ≡ verdict (later_breaches schema.now sources.now conjuncts.now i source.now) }
{
    if i == 0 {
        return Ok(());
    }
    let from = width(schema, &sources[..i]);
    let to = width(schema, &sources[..i + 1]);
    check_joined(source, i, Span { from, to }, conjuncts)
}

/// Whether each source after the first is joined to those before it.
pub(crate) fn check_joins(
    schema: &[TableDecl],
    sources: &[Source],
    conjuncts: &[Conjunct],
) -> Result<(), BindBad>
    requires { length sources.now ≤ 8 }
    ensures { result ≡ verdict (join_breaches schema.now sources.now conjuncts.now) }
{
    'sources: for (i, source) in sources.iter().enumerate() {
        check_later(schema, sources, conjuncts, i, source)?;
    }
    Ok(())
}
