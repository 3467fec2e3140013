//! A merge join, run to its end at ample memory.
ghost use Rattle.std.specs.Prelude.{◌≡◌, [], ◌∷◌, None, Some, IfOk};
ghost use Rattle.pm_values.specs.Table.{IsRelation};
ghost use Rattle.pm_plan.specs.Preorder.{nodes_of};
ghost use Rattle.pm_plan.specs.Worked.{declared, integer_column, over};
ghost use Rattle.pm_operator_tests.specs.Worked.{ascending, merged_pairs};

use super::{NO_FLAGS, Trace, gauge, name, pairs, plan, rows, run_through};
use pm_flows::{key_columns, seek_indexes};
use pm_plan::{Node, Nodes};
use pm_values::{
    ColumnDecl, ColumnDecls, Columns, Db, Kind, References, Rows, Table, TableDecl, Txt,
};
use std::alloc::{AllocError, Global};
use std::test::Fail;

/// A table of one column, by which its rows ascend.
fn ordered_table(alloc: Global, name: &str, column: &str, rows: Rows) -> Result<Table, AllocError>
    requires { IsRelation (over (declared name.now (integer_column column.now ∷ []) None (Some (0 ∷ []))) rows) }
    ensures { IfOk result (λ table. table ≡ over (declared name.now (integer_column column.now ∷ []) None (Some (0 ∷ []))) rows) }
{
    let mut columns = ColumnDecls::new(alloc);
    columns.push(ColumnDecl {
        name: Txt::new(alloc, column)?,
        kind: Kind::Int,
        nullable: false,
    })?;
    let decl = TableDecl::new(
        Txt::new(alloc, name)?,
        Txt::new(alloc, name)?,
        columns,
        None,
        Some(Columns::from_slice(alloc, &[0])?),
        References::new(alloc),
    );
    Ok(Table::new(decl, rows))
}

fn ordered_tables(alloc: Global) -> Result<Db, AllocError>
    ensures { IfOk result (λ db. db ≡ ascending) }
{
    let mut db = Db::new(alloc);
    let rows_of_a = rows(alloc, &[5, 5, 7])?;
    db.push(ordered_table(alloc, "a", "x", rows_of_a)?)?;
    let rows_of_b = rows(alloc, &[5, 5, 6, 9, 9])?;
    db.push(ordered_table(alloc, "b", "y", rows_of_b)?)?;
    Ok(db)
}

fn merged_nodes(alloc: Global) -> Result<Nodes, AllocError>
    ensures { IfOk result (λ nodes. nodes ≡ nodes_of merged_pairs 1) }
{
    let mut nodes = Nodes::new(alloc);
    nodes.push(Node::Merge {
        left: 2,
        right: 3,
        pairs: pairs(alloc)?,
        unique: NO_FLAGS,
    })?;
    nodes.push(Node::Scan {
        table: 0,
        label: name(alloc, "a")?,
    })?;
    nodes.push(Node::Scan {
        table: 1,
        label: name(alloc, "b")?,
    })?;
    Ok(nodes)
}

fn merged(alloc: Global) -> Result<Trace, AllocError> {
    let db = ordered_tables(alloc)?;
    let plan = plan(alloc, merged_nodes(alloc)?)?;
    let keys = key_columns(alloc, &plan)?;
    let indexes = seek_indexes(alloc, &plan, &db, &keys)?;
    run_through(alloc, &plan, &db, &keys, &indexes)
}

#[test]
fn a_merge_join_reads_on_when_its_left_side_has_ended(rt: HostRuntime) -> Result<(), Fail> {
    let alloc = rt.alloc();
    let merged = merged(alloc)?;
    assert_eq!(rt;
        merged.nodes.as_slice(),
        [2, 3, 3, 3, 1, 1, 2, 1, 1, 2, 3, 3].as_slice()
    );
    let gauges = [gauge(4, 4, 0, 0), gauge(3, 3, 0, 3), gauge(5, 5, 0, 5)];
    assert_eq!(rt; merged.gauges.as_slice(), gauges.as_slice());
    Ok(())
}
