//! A refiner at ample memory: an index join of two tables without KEYs, after each of its first six events.
ghost use Rattle.std.specs.Prelude.{◌≡◌, ◌+◌, ◌<◌, [], ◌∷◌, length, get_or, IfOk};
ghost use Rattle.pm_values.specs.declared.value.Kind.TheVariants as kind;
ghost use Rattle.pm_plan.specs.Preorder.{nodes_of};
ghost use Rattle.pm_plan.specs.Worked.{keyless, label};
ghost use Rattle.pm_work.specs.Events.{trace};
ghost use Rattle.pm_work.specs.Moments.{gauges_at};
ghost use Rattle.pm_work.specs.Worked.{looked_up_keyless};
ghost use Rattle.pm_refine.specs.Refining.{StandsFor};
ghost use Rattle.pm_refine.specs.Example.{IsExample};

use pm_plan::{Gauge, Label, Node, Nodes, Pair, Pairs, Plan, Unique, Whole};
use pm_refine::Refiner;
use pm_values::{Kind, Kinds, Names, Txt};
use std::alloc::{AllocError, Global};
use std::test::Fail;

fn name(alloc: Global, table: &str) -> Result<Label, AllocError>
    ensures { IfOk result (λ name. name ≡ label table.now table.now) }
{
    Ok(Label {
        table: Txt::new(alloc, table)?,
        alias: Txt::new(alloc, table)?,
    })
}

fn nodes(alloc: Global) -> Result<Nodes, AllocError>
    ensures { IfOk result (λ nodes. nodes ≡ nodes_of looked_up_keyless 1) }
{
    let mut nodes = Nodes::new(alloc);
    nodes.push(Node::Index {
        left: 2,
        seek: 3,
        cond: None,
    })?;
    nodes.push(Node::Scan {
        table: 0,
        label: name(alloc, "a")?,
    })?;
    nodes.push(Node::Seek {
        left: 2,
        table: 1,
        pairs: Pairs::from_slice(alloc, &[Pair { left: 0, right: 0 }])?,
        label: name(alloc, "b")?,
        unique: Unique {
            left: false,
            right: false,
            total: false,
        },
    })?;
    Ok(nodes)
}

fn plan(alloc: Global) -> Result<Plan, AllocError>
    ensures { IfOk result IsExample }
{
    let mut heads = Names::new(alloc);
    heads.push(Txt::new(alloc, "m")?)?;
    heads.push(Txt::new(alloc, "n")?)?;
    let nodes = nodes(alloc)?;
    let kinds = Kinds::from_slice(alloc, &[Kind::Int, Kind::Int])?;
    Ok(Plan {
        nodes,
        heads,
        kinds,
    })
}

fn gauge(handed: u128, settled: u128, worst: u64, size: u64) -> Gauge
    ensures { result ≡ record { handed = handed; settled = settled; worst = worst; size = size } }
{
    Gauge {
        handed,
        settled,
        worst,
        size,
    }
}

/// After the first `t` events comes one of this node, which makes these gauges.
fn after_events(refiner: &mut Refiner<'_>, t: u32, node: u32, gauges: &[Gauge])
    requires example { IsExample refiner.old.plan }
    requires stands { StandsFor refiner.old (gauges_at keyless looked_up_keyless t) }
    requires left { t < 11 }
    requires event { node ≡ get_or (trace keyless looked_up_keyless) t 0 }
    requires gauges { gauges.now ≡ gauges_at keyless looked_up_keyless (t + 1) }
    ensures example { IsExample refiner.new.plan }
    ensures stands { StandsFor refiner.new (gauges_at keyless looked_up_keyless (t + 1)) }
{
    refiner.after(node, gauges);
}

/// The sums before any event, and after the first and the sixth.
fn sums(alloc: Global) -> Result<[Whole; 3], AllocError> {
    let plan = plan(alloc)?;
    let start = [gauge(0, 0, 0, 0), gauge(0, 3, 0, 3), gauge(0, 0, 2, 3)];
    let mut refiner = Refiner::new(alloc, &plan, &start)?;
    let none = refiner.total();
    let gauges = [gauge(0, 0, 0, 0), gauge(1, 3, 0, 3), gauge(0, 2, 2, 3)];
    after_events(&mut refiner, 0, 2, &gauges);
    let one = refiner.total();
    let gauges = [gauge(0, 1, 0, 0), gauge(1, 3, 0, 3), gauge(1, 2, 2, 3)];
    after_events(&mut refiner, 1, 3, &gauges);
    let gauges = [gauge(1, 1, 0, 0), gauge(1, 3, 0, 3), gauge(1, 2, 2, 3)];
    after_events(&mut refiner, 2, 1, &gauges);
    let gauges = [gauge(1, 2, 0, 0), gauge(1, 3, 0, 3), gauge(2, 2, 2, 3)];
    after_events(&mut refiner, 3, 3, &gauges);
    let gauges = [gauge(2, 2, 0, 0), gauge(1, 3, 0, 3), gauge(2, 2, 2, 3)];
    after_events(&mut refiner, 4, 1, &gauges);
    let gauges = [gauge(2, 2, 0, 0), gauge(2, 3, 0, 3), gauge(2, 2, 2, 3)];
    after_events(&mut refiner, 5, 2, &gauges);
    Ok([none, one, refiner.total()])
}

#[test]
fn bounds_are_refined(rt: HostRuntime) -> Result<(), Fail> {
    let found = sums(rt.alloc())?;
    let want = [(0, 3, 15), (1, 5, 15), (6, 7, 11)];
    for (sums, want) in found.iter().zip(&want) {
        assert_eq!(rt; (sums.work, sums.lo, sums.hi), *want);
    }
    Ok(())
}
