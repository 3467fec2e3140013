//! Pipelines at ample memory: a projection over a hash join of two scans.
ghost use Rattle.std.specs.Prelude.{◌≡◌, [], ◌∷◌, length, IfOk};
ghost use Rattle.pm_plan.specs.Preorder.{nodes_of};
ghost use Rattle.pm_plan.specs.Worked.{label};
ghost use Rattle.pm_work.specs.Worked.{keyless_join};

use pm_estim::Pipes;
use pm_plan::{Label, Node, Nodes, Pair, Pairs, Plan, Unique};
use pm_values::{Columns, Kinds, Names, Txt};
use std::alloc::{AllocError, Global};
use std::test::Fail;

fn name(alloc: Global, table: &str) -> Result<Label, AllocError>
    ensures { IfOk result (λ name. name ≡ label table.now table.now) }
{
    Ok(Label {
        table: Txt::new(alloc, table)?,
        alias: Txt::new(alloc, table)?,
    })
}

fn join_nodes(alloc: Global) -> Result<Nodes, AllocError>
    ensures { IfOk result (λ nodes. nodes ≡ nodes_of keyless_join 1) }
{
    let mut nodes = Nodes::new(alloc);
    nodes.push(Node::Project {
        child: 2,
        columns: Columns::from_slice(alloc, &[0, 1])?,
    })?;
    nodes.push(Node::Hash {
        left: 3,
        right: 4,
        pairs: Pairs::from_slice(alloc, &[Pair { left: 0, right: 0 }])?,
        unique: Unique {
            left: false,
            right: false,
            total: false,
        },
        pad: false,
    })?;
    nodes.push(Node::Scan {
        table: 0,
        label: name(alloc, "a")?,
    })?;
    nodes.push(Node::Scan {
        table: 1,
        label: name(alloc, "b")?,
    })?;
    Ok(nodes)
}

fn join_pipes(alloc: Global) -> Result<Pipes, AllocError>
    ensures { IfOk result (λ pipes. length pipes ≡ 4) }
{
    let plan = Plan {
        nodes: join_nodes(alloc)?,
        heads: Names::new(alloc),
        kinds: Kinds::new(alloc),
    };
    let pipes = Pipes::of(alloc, &plan)?;
    Ok(pipes)
}

#[test]
fn build_side_is_a_pipeline(rt: HostRuntime) -> Result<(), Fail> {
    let pipes = join_pipes(rt.alloc())?;
    assert_eq!(rt; (pipes.pipe(1), pipes.driver(1)), (1, false));
    assert_eq!(rt; (pipes.pipe(2), pipes.driver(2)), (1, false));
    assert_eq!(rt; (pipes.pipe(3), pipes.driver(3)), (1, true));
    assert_eq!(rt; (pipes.pipe(4), pipes.driver(4)), (2, true));
    Ok(())
}
