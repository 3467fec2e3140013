//! The gauges that a run keeps: what it knows of each node after the events so far.
ghost use Rattle.std.specs.Prelude.{◌≡◌, ◌<◌, length, map, All, IfOk, IfSome, IsSome};
ghost use Rattle.pm_values.specs.Keys.{worst};
ghost use Rattle.pm_plan.specs.Preorder.{tree_of};
ghost use Rattle.pm_plan.specs.Rows.{table_rows};
ghost use Rattle.pm_work.specs.Fits.{Fits};
ghost use Rattle.pm_work.specs.Moments.{gauges_at};
ghost use Rattle.pm_exec.specs.Gauged.{IsAmong, IsCounted, first_gauge};
ghost use Rattle.pm_flows.specs.Indexes.{IsReadable, index_of};
ghost use Rattle.pm_exec.specs.Noted.{gauges_with};

use pm_flows::{Indexes, Taken, rows_if};
use pm_index::Index;
use pm_plan::{Gauge, Node, Plan};
use pm_values::Db;
use std::alloc::{AllocError, Global};

/// How many rows the table of this number has.
fn size_of(db: &Db, table: u32) -> u64
    requires { table < length db.now }
    ensures { result ≡ length (table_rows db.now table) }
{
    db.at(table as usize).rows().len() as u64
}

fn worst_of(index: &Option<Index<'_>>) -> u64
    requires { IsSome index.now }
    ensures { IfSome index.now (λ found. result ≡ worst found.keys) }
{
    match index {
        Some(index) => u64::from(index.worst()),
        None => unreachable!(),
    }
}

fn unread(settled: u128, worst: u64, size: u64) -> Gauge
    ensures { result ≡ record { handed = 0; settled = settled; worst = worst; size = size } }
{
    Gauge {
        handed: 0,
        settled,
        worst,
        size,
    }
}

/// The gauge of a node before the first event.
fn first_gauge(db: &Db, node: &Node, index: &Option<Index<'_>>) -> Gauge
    requires readable { IsReadable db.now node.now }
    requires index { index.now ≡ index_of db.now node.now }
    ensures { result ≡ first_gauge db.now node.now }
{
    match node {
        Node::Scan { table, .. } => {
            let size = size_of(db, *table);
            unread(u128::from(size), 0, size)
        }
        Node::Group { keys, .. } => unread(rows_if(keys.is_empty()), 0, 0),
        Node::Seek { table, .. } => unread(0, worst_of(index), size_of(db, *table)),
        _ => unread(0, 0, 0),
    }
}

/// The gauges of a plan's nodes before the first event, in the plan's order, from the plan's indexes. Only want
/// of memory fails it.
pub fn first_gauges(
    alloc: Global,
    plan: &Plan,
    db: &Db,
    indexes: &Indexes<'_>,
) -> Result<Vec<Gauge>, AllocError>
    requires fits { Fits plan.now db.now }
    requires indexes { indexes.now ≡ map (index_of db.now) plan.now.nodes }
    ensures { IfOk result (λ gauges. gauges.items ≡ gauges_at db.now (tree_of plan.now.nodes) 0) }
{
    let mut gauges = Vec::new(alloc);
    let nodes = plan.nodes.as_slice();
    for (k, node) in nodes.iter().enumerate() {
        gauges.push(first_gauge(db, node, indexes.at(k)))?;
    }
    Ok(gauges)
}

/// Changes the gauges by an event: the count of its own node, and what is settled at the node that reads its row, with the
/// greatest multiplicity there.
pub fn note(gauges: &mut [Gauge], taken: Taken)
    requires among { IsAmong (length gauges.old) taken }
    requires counted { All IsCounted (gauges_with 1 taken gauges.old) }
    ensures { gauges.new ≡ gauges_with 1 taken gauges.old }
{
    gauges[taken.node as usize - 1].handed += 1;
    if taken.reader != 0 {
        let gauge = &mut gauges[taken.reader as usize - 1];
        gauge.settled += taken.settled;
        gauge.worst = gauge.worst.max(taken.worst);
    }
}
