//! What stands above the joins: groups, HAVING, the selection, DISTINCT and the sort.
ghost use Rattle.std.specs.Prelude.{◌≡◌, ◌≢◌, ◌≤◌, ◌<◌, ◌^◌, IfOk, [], length, map};
ghost use Rattle.pm_plan.specs.Tree.{Over, Project, Group};
ghost use Rattle.pm_query.specs.Answer.{position_of, selected_orders};
ghost use Rattle.pm_query.specs.Build.{sort_if, group_if, numbers_from, tree_for};
ghost use Rattle.pm_joining.specs.Trees.{tree_of};

use crate::joins::{filtered, join_tree};
use pm_joining::{Tree, Unary};
use pm_plan::{Aggregates, SortKey, SortKeys};
use pm_query::{Choice, Query};
use pm_values::{Columns, Cond};
use sqlite_items::Boxed;
use std::alloc::{AllocError, Global};

fn copy_if(alloc: Global, cond: &Option<Cond>) -> Result<Option<Cond>, AllocError>
    ensures { IfOk result (λ copy. copy ≡ cond.now) }
{
    match cond {
        Some(cond) => Ok(Some(cond.copy(alloc)?)),
        None => Ok(None),
    }
}

fn sort_if(alloc: Global, keys: SortKeys, tree: Boxed<Tree>) -> Result<Boxed<Tree>, AllocError>
    ensures { IfOk result (λ made. tree_of made ≡ sort_if keys (tree_of tree)) }
{
    if keys.is_empty() {
        Ok(tree)
    } else {
        Tree::over(alloc, Unary::Sort(keys), tree)
    }
}

fn group_if(alloc: Global, query: &Query, tree: Boxed<Tree>) -> Result<Boxed<Tree>, AllocError>
    ensures { IfOk result (λ made. tree_of made ≡ group_if query.now (tree_of tree)) }
{
    if !query.grouped {
        return Ok(tree);
    }
    let keys = Columns::from_slice(alloc, query.keys.as_slice())?;
    let items = Aggregates::from_slice(alloc, query.aggregates.as_slice())?;
    let group = Tree::over(alloc, Unary::Group { keys, items }, tree)?;
    filtered(alloc, copy_if(alloc, &query.having)?, group)
}

// The positions of selected columns in a row of them alone.
fn positions(alloc: Global, outputs: &[u32]) -> Result<Columns, AllocError>
    requires { length outputs.now < 2 ^ 32 }
    ensures { IfOk result (λ made. made ≡ numbers_from 0 outputs.now) }
{
    let mut made = Columns::new(alloc);
    for i in 0..outputs.len() {
        made.push(i as u32)?;
    }
    Ok(made)
}

// The position of a column among the selected ones, their number where it is none of them.
fn position_of(column: u32, outputs: &[u32]) -> u32
    requires { length outputs.now < 2 ^ 32 }
    ensures { result ≡ position_of column outputs.now }
{
    let mut position = 0;
    for output in outputs {
        if column == *output {
            return position;
        }
        position += 1;
    }
    position
}

// The order of the selected rows.
fn selected_orders(alloc: Global, query: &Query) -> Result<SortKeys, AllocError>
    requires { length query.now.outputs < 2 ^ 32 }
    ensures { IfOk result (λ orders. orders ≡ selected_orders query.now) }
{
    let outputs = query.outputs.as_slice();
    let mut orders = SortKeys::new(alloc);
    for key in query.orders.as_slice() {
        let column = position_of(key.column, outputs);
        let descending = key.descending;
        orders.push(SortKey { column, descending })?;
    }
    Ok(orders)
}

fn projected(alloc: Global, query: &Query, tree: Boxed<Tree>) -> Result<Boxed<Tree>, AllocError>
    ensures { IfOk result (λ made. tree_of made ≡ Over (Project query.now.outputs) (tree_of tree)) }
{
    let columns = Columns::from_slice(alloc, query.outputs.as_slice())?;
    Tree::over(alloc, Unary::Project(columns), tree)
}

// With DISTINCT: the rows selected, each different one once, and sorted.
fn distinct(alloc: Global, query: &Query, rows: Boxed<Tree>) -> Result<Boxed<Tree>, AllocError>
    requires { length query.now.outputs < 2 ^ 32 }
    ensures { IfOk result (λ made. tree_of made ≡ sort_if (selected_orders query.now) (Over (Group (numbers_from 0 query.now.outputs) []) (Over (Project query.now.outputs) (tree_of rows)))) }
{
    let selected = projected(alloc, query, rows)?;
    let keys = positions(alloc, query.outputs.as_slice())?;
    let items = Aggregates::new(alloc);
    let once = Tree::over(alloc, Unary::Group { keys, items }, selected)?;
    sort_if(alloc, selected_orders(alloc, query)?, once)
}

// Without DISTINCT: the rows sorted and then selected.
fn sorted(alloc: Global, query: &Query, rows: Boxed<Tree>) -> Result<Boxed<Tree>, AllocError>
    ensures { IfOk result (λ made. tree_of made ≡ Over (Project query.now.outputs) (sort_if query.now.orders (tree_of rows))) }
{
    let keys = SortKeys::from_slice(alloc, query.orders.as_slice())?;
    let ordered = sort_if(alloc, keys, rows)?;
    projected(alloc, query, ordered)
}

/// The tree of a query over tables of these sizes.
pub fn tree_for(
    alloc: Global,
    query: &Query,
    sizes: &[u64],
    choice: Choice,
) -> Result<Boxed<Tree>, AllocError>
    requires some { query.now.sources ≢ [] }
    requires few { length query.now.sources ≤ 8 }
    requires narrow { length query.now.outputs < 2 ^ 32 }
    ensures { IfOk result (λ tree. tree_of tree ≡ tree_for query.now sizes.now choice) }
{
    let joins = join_tree(alloc, query, sizes, choice)?;
    let rows = group_if(alloc, query, joins)?;
    if query.distinct {
        distinct(alloc, query, rows)
    } else {
        sorted(alloc, query, rows)
    }
}
