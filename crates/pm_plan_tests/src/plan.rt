//! The lines of a plan: one operator of each kind.
use pm_plan::{Aggregates, Label, Node, Nodes, Pair, Pairs, Plan, SortKeys, Unique, plan_text};
use pm_values::{Columns, Cond, Kinds, Names, Operand, Txt};
use std::alloc::{AllocError, Global};
use std::test::Fail;

fn label(alloc: Global, table: &str, alias: &str) -> Result<Label, AllocError> {
    Ok(Label {
        table: Txt::new(alloc, table)?,
        alias: Txt::new(alloc, alias)?,
    })
}

fn flags(left: bool, right: bool, total: bool) -> Unique {
    Unique { left, right, total }
}

fn pairs(alloc: Global) -> Result<Pairs, AllocError> {
    Pairs::from_slice(alloc, &[Pair { left: 0, right: 0 }])
}

fn joins(alloc: Global, nodes: &mut Nodes) -> Result<(), AllocError> {
    nodes.push(Node::Hash {
        left: 6,
        right: 7,
        pairs: pairs(alloc)?,
        unique: flags(false, true, false),
        pad: true,
    })?;
    nodes.push(Node::Merge {
        left: 7,
        right: 8,
        pairs: pairs(alloc)?,
        unique: flags(true, true, true),
    })?;
    nodes.push(Node::Index {
        left: 8,
        seek: 9,
        cond: None,
    })?;
    nodes.push(Node::Scan {
        table: 0,
        label: label(alloc, "ord", "o")?,
    })?;
    nodes.push(Node::Seek {
        left: 8,
        table: 1,
        pairs: pairs(alloc)?,
        label: label(alloc, "order", "a b")?,
        unique: flags(false, false, false),
    })
}

/// One operator of each kind. It is no plan that could run.
fn one_of_each(alloc: Global) -> Result<Nodes, AllocError> {
    let mut nodes = Nodes::new(alloc);
    nodes.push(Node::Project {
        child: 2,
        columns: Columns::new(alloc),
    })?;
    nodes.push(Node::Sort {
        child: 3,
        keys: SortKeys::new(alloc),
    })?;
    nodes.push(Node::Group {
        child: 4,
        keys: Columns::new(alloc),
        items: Aggregates::new(alloc),
    })?;
    nodes.push(Node::Filter {
        child: 5,
        cond: Cond::IsNull(Operand::Column { at: 0, scale: 0 }).copy(alloc)?,
    })?;
    joins(alloc, &mut nodes)?;
    Ok(nodes)
}

#[test]
fn each_kind_of_operator_has_its_line(rt: HostRuntime) -> Result<(), Fail> {
    let alloc = rt.alloc();
    let plan = Plan {
        nodes: one_of_each(alloc)?,
        heads: Names::new(alloc),
        kinds: Kinds::new(alloc),
    };
    let text = plan_text(alloc, &plan)?;
    assert_eq!(rt;
        text.as_str(),
        "N 1 project 2\nN 2 sort 3\nN 3 group 4\nN 4 filter 5\nN 5 lefthash 6 7 unique=right\nN 6 merge 7 8 unique=both total\nN 7 index 8 9\nN 8 scan ord o\nN 9 seek \"order\" \"a b\" unique=none\n"
    );
    Ok(())
}
