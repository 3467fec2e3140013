//! `build` at ample memory: the plans of one query for each choice, and one that is too wide.
ghost use Rattle.std.specs.Prelude.{◌≡◌, ◌++◌, [], ◌∷◌, IfOk, OnOk};
ghost use Rattle.pm_query.specs.Worked.{table_at, source};
ghost use Rattle.pm_build.specs.Worked.{keyless, two_keyless};

use pm_build::{BuildBad, build};
use pm_plan::{Aggregates, SortKeys, plan_text};
use pm_query::{
    Choice, Conjunct, Conjuncts, Query, QuerySource, QuerySources, QueryTable, QueryTables,
};
use pm_values::{
    ColumnDecl, ColumnDecls, Columns, Comparison, Cond, Kind, Names, Operand, References,
    TableDecl, Txt,
};
use std::alloc::{AllocError, Global};
use std::test::Fail;

fn keyless(alloc: Global, name: &str) -> Result<TableDecl, AllocError>
    ensures { IfOk result (λ decl. decl ≡ keyless name.now) }
{
    let mut columns = ColumnDecls::new(alloc);
    columns.push(ColumnDecl {
        name: Txt::new(alloc, "x")?,
        kind: Kind::Int,
        nullable: false,
    })?;
    Ok(TableDecl::new(
        Txt::new(alloc, name)?,
        Txt::new(alloc, name)?,
        columns,
        None,
        None,
        References::new(alloc),
    ))
}

fn push_table(
    tables: &mut QueryTables,
    sources: &mut QuerySources,
    alloc: Global,
    place: u32,
    name: &str,
) -> Result<(), AllocError>
    ensures tables { OnOk result (tables.new ≡ tables.old ++ table_at place (keyless name.now) ∷ []) }
    ensures sources { OnOk result (sources.new ≡ sources.old ++ source place name.now ∷ []) }
{
    tables.push(QueryTable {
        place,
        decl: keyless(alloc, name)?,
    })?;
    sources.push(QuerySource {
        table: place,
        alias: Txt::new(alloc, name)?,
        left: false,
    })
}

// SELECT a.x FROM a JOIN b ON a.x = b.x
fn two_keyless(alloc: Global) -> Result<Query, AllocError>
    ensures { IfOk result (λ query. query ≡ two_keyless) }
{
    let mut tables = QueryTables::new(alloc);
    let mut sources = QuerySources::new(alloc);
    push_table(&mut tables, &mut sources, alloc, 0, "a")?;
    push_table(&mut tables, &mut sources, alloc, 1, "b")?;
    let mut conjuncts = Conjuncts::new(alloc);
    conjuncts.push(Conjunct {
        on: Some(1),
        cond: Cond::Compare {
            how: Comparison::Equal,
            left: Operand::Column { at: 0, scale: 0 },
            right: Operand::Column { at: 1, scale: 0 },
        },
    })?;
    let mut heads = Names::new(alloc);
    heads.push(Txt::new(alloc, "x")?)?;
    Ok(Query {
        tables,
        sources,
        conjuncts,
        grouped: false,
        keys: Columns::new(alloc),
        aggregates: Aggregates::new(alloc),
        having: None,
        outputs: Columns::from_slice(alloc, &[0])?,
        heads,
        orders: SortKeys::new(alloc),
        distinct: false,
    })
}

// The lines of the plan that is built, or the bound for which it is too wide, None for want of memory.
fn built(
    alloc: Global,
    sizes: &[u64],
    choice: Choice,
) -> Result<Result<Txt, BuildBad>, AllocError> {
    let query = two_keyless(alloc)?;
    match build(alloc, &query, sizes, choice) {
        Ok(plan) => Ok(Ok(plan_text(alloc, &plan)?)),
        Err(bad) => Ok(Err(bad)),
    }
}

#[test]
fn plans_are_built(rt: HostRuntime) -> Result<(), Fail> {
    let hash = "N 1 project 2\nN 2 hash 3 4 unique=none\nN 3 scan a a\nN 4 scan b b\n";
    let index = "N 1 project 2\nN 2 index 3 4\nN 3 scan a a\nN 4 seek b b unique=none\n";
    let cases = [
        (Choice::Auto, hash),
        (Choice::Hash, hash),
        (Choice::Merge, hash),
        (Choice::Index, index),
    ];
    for (choice, want) in cases {
        match built(rt.alloc(), &[5, 7], choice)? {
            Ok(text) => assert_eq!(rt; text.as_str(), want),
            Err(bad) => assert_eq!(rt; bad, BuildBad::TooWide(0)),
        }
    }
    Ok(())
}

#[test]
fn a_wide_plan_is_refused(rt: HostRuntime) -> Result<(), Fail> {
    let found = built(rt.alloc(), &[u64::MAX, u64::MAX], Choice::Hash)?;
    match found {
        Ok(text) => assert_eq!(rt; text.as_str(), ""),
        Err(bad) => assert_eq!(rt; bad, BuildBad::TooWide(u128::MAX)),
    }
    Ok(())
}
