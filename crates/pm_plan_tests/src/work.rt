//! `count_whole` at ample memory: one plan with each operator over one or two children, and one with an Index.
ghost use Rattle.std.specs.Prelude.{◌≡◌, [], ◌∷◌, map, length, None, IfOk};
ghost use Rattle.pm_values.specs.declared.value.Value.TheVariants.{Int};
ghost use Rattle.pm_values.specs.declared.value.Kind.TheVariants as kind;
ghost use Rattle.pm_values.specs.Table.{IsRelation};
ghost use Rattle.pm_plan.specs.declared.plan.Node.TheVariants as node;
ghost use Rattle.pm_plan.specs.Preorder.{nodes_of};
ghost use Rattle.pm_plan.specs.Worked.{declared, integer_column, keyless, label, over};
ghost use Rattle.pm_work.specs.Worked.{counted_left_join, looked_up_keyless};

use pm_plan::{
    Aggregate, Aggregates, Label, Node, Nodes, Pair, Pairs, Plan, SortKey, SortKeys, Unique,
};
use pm_values::{
    ColumnDecl, ColumnDecls, Columns, Comparison, Cond, Db, Kind, Kinds, Names, Operand,
    References, Row, Rows, Table, TableDecl, Txt, Value,
};
use pm_work::count_whole;
use std::alloc::{AllocError, Global};
use std::test::Fail;

/// The rows of a table of one column.
fn rows(alloc: Global, numbers: &[i128]) -> Result<Rows, AllocError>
    ensures { IfOk result (λ rows. rows ≡ map (λ n. Int n ∷ []) numbers.now) }
{
    let mut rows = Rows::new(alloc);
    for n in numbers {
        let mut row = Row::new(alloc);
        row.push(Value::Int(*n))?;
        rows.push(row)?;
    }
    Ok(rows)
}

/// A table of one column, without KEY and ORDER.
fn table(alloc: Global, name: &str, column: &str, rows: Rows) -> Result<Table, AllocError>
    requires { IsRelation (over (declared name.now (integer_column column.now ∷ []) None None) rows) }
    ensures { IfOk result (λ table. table ≡ over (declared name.now (integer_column column.now ∷ []) None None) rows) }
{
    let mut columns = ColumnDecls::new(alloc);
    columns.push(ColumnDecl {
        name: Txt::new(alloc, column)?,
        kind: Kind::Int,
        nullable: false,
    })?;
    let decl = TableDecl::new(
        Txt::new(alloc, name)?,
        Txt::new(alloc, name)?,
        columns,
        None,
        None,
        References::new(alloc),
    );
    Ok(Table::new(decl, rows))
}

fn tables(alloc: Global) -> Result<Db, AllocError>
    ensures { IfOk result (λ db. db ≡ keyless) }
{
    let mut db = Db::new(alloc);
    db.push(table(alloc, "a", "x", rows(alloc, &[5, 7, 5])?)?)?;
    db.push(table(alloc, "b", "y", rows(alloc, &[5, 6, 5])?)?)?;
    Ok(db)
}

fn name(alloc: Global, table: &str) -> Result<Label, AllocError>
    ensures { IfOk result (λ name. name ≡ label table.now table.now) }
{
    Ok(Label {
        table: Txt::new(alloc, table)?,
        alias: Txt::new(alloc, table)?,
    })
}

fn pairs(alloc: Global) -> Result<Pairs, AllocError>
    ensures { IfOk result (λ pairs. pairs ≡ record { left = 0; right = 0 } ∷ []) }
{
    Pairs::from_slice(alloc, &[Pair { left: 0, right: 0 }])
}

const NO_FLAGS: Unique = Unique {
    left: false,
    right: false,
    total: false,
};

fn counted_left_join_nodes(alloc: Global) -> Result<Nodes, AllocError>
    ensures { IfOk result (λ nodes. nodes ≡ nodes_of counted_left_join 1) }
{
    let mut nodes = Nodes::new(alloc);
    nodes.push(Node::Project {
        child: 2,
        columns: Columns::from_slice(alloc, &[1, 0])?,
    })?;
    let by_count = SortKey {
        column: 1,
        descending: true,
    };
    nodes.push(Node::Sort {
        child: 3,
        keys: SortKeys::from_slice(alloc, &[by_count])?,
    })?;
    nodes.push(Node::Group {
        child: 4,
        keys: Columns::from_slice(alloc, &[0])?,
        items: Aggregates::from_slice(alloc, &[Aggregate::CountAll])?,
    })?;
    nodes.push(Node::Hash {
        left: 5,
        right: 7,
        pairs: pairs(alloc)?,
        unique: NO_FLAGS,
        pad: true,
    })?;
    nodes.push(Node::Filter {
        child: 6,
        cond: Cond::Compare {
            how: Comparison::Greater,
            left: Operand::Column { at: 0, scale: 0 },
            right: Operand::Literal {
                value: Value::Int(5),
                scale: 0,
            },
        },
    })?;
    nodes.push(Node::Scan {
        table: 0,
        label: name(alloc, "a")?,
    })?;
    nodes.push(Node::Scan {
        table: 1,
        label: name(alloc, "b")?,
    })?;
    Ok(nodes)
}

fn looked_up_nodes(alloc: Global) -> Result<Nodes, AllocError>
    ensures { IfOk result (λ nodes. nodes ≡ nodes_of looked_up_keyless 1) }
{
    let mut nodes = Nodes::new(alloc);
    nodes.push(Node::Index {
        left: 2,
        seek: 3,
        cond: None,
    })?;
    nodes.push(Node::Scan {
        table: 0,
        label: name(alloc, "a")?,
    })?;
    nodes.push(Node::Seek {
        left: 2,
        table: 1,
        pairs: pairs(alloc)?,
        label: name(alloc, "b")?,
        unique: NO_FLAGS,
    })?;
    Ok(nodes)
}

/// A plan of these nodes whose root has two columns of whole numbers.
fn plan(alloc: Global, nodes: Nodes) -> Result<Plan, AllocError>
    ensures nodes { IfOk result (λ plan. plan.nodes ≡ nodes) }
    ensures kinds { IfOk result (λ plan. plan.kinds ≡ kind.Int ∷ kind.Int ∷ []) }
    ensures heads { IfOk result (λ plan. length plan.heads ≡ 2) }
{
    let mut heads = Names::new(alloc);
    heads.push(Txt::new(alloc, "m")?)?;
    heads.push(Txt::new(alloc, "n")?)?;
    Ok(Plan {
        nodes,
        heads,
        kinds: Kinds::from_slice(alloc, &[Kind::Int, Kind::Int])?,
    })
}

fn counted_left_join(alloc: Global) -> Result<u128, AllocError> {
    let db = tables(alloc)?;
    let plan = plan(alloc, counted_left_join_nodes(alloc)?)?;
    count_whole(alloc, &plan, &db)
}

fn looked_up(alloc: Global) -> Result<u128, AllocError> {
    let db = tables(alloc)?;
    let plan = plan(alloc, looked_up_nodes(alloc)?)?;
    count_whole(alloc, &plan, &db)
}

#[test]
fn whole_works(rt: HostRuntime) -> Result<(), Fail> {
    let alloc = rt.alloc();
    for (found, want) in [(counted_left_join(alloc)?, 11), (looked_up(alloc)?, 11)] {
        assert_eq!(rt; found, want);
    }
    Ok(())
}
