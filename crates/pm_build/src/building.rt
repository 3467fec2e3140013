//! Builds the plan of a query.
ghost use Rattle.std.specs.Prelude.{◌≡◌, ◌⊎◌, ◌+◌, ◌<◌, ◌^◌, IfOk, IsErrOf, length};
ghost use Rattle.pm_plan.specs.Tree.{size};
ghost use Rattle.pm_plan.specs.Preorder.{nodes_of};
ghost use Rattle.pm_plan.specs.Kinds.{kinds_of};
ghost use Rattle.pm_plan.specs.Valid.{IsValid};
ghost use Rattle.pm_query.specs.Bound.{IsBound};
ghost use Rattle.pm_query.specs.Build.{decls_in};
ghost use Rattle.pm_build.specs.declared.building.BuildBad.TheVariants as bad;
ghost use Rattle.pm_joining.specs.Trees.{tree_of};
ghost use Rattle.pm_joining.specs.Tables.{table_decls};
ghost use Rattle.pm_build.specs.Built.{built, HasRowsOf, FitsDatabases};

use crate::first::too_wide;
use crate::groups::tree_for;
use crate::kinds::kinds_of;
use crate::nodes::nodes_of;
use pm_joining::{Tree, tables_are_declared};
use pm_plan::Plan;
use pm_query::{Choice, Query};
use pm_values::Names;
use sqlite_items::Boxed;
use std::alloc::{AllocError, Global};

/// Why a plan is not built.
#[derive(Clone, Copy, Debug, PartialEq, Eq)]
pub enum BuildBad {
    /// This first bound is too high: that of the whole work above 10^34, or that of the rows below a SUM above 10^18.
    TooWide(u128),
    /// No memory was left.
    Memory,
}

impl From<AllocError> for BuildBad {
    ghost use Rattle.pm_build.specs.declared.building.BuildBad.TheVariants.{Memory};

    ghost from_gives = { λ _ e. e ≡ Memory };

    fn from(_e: AllocError) -> BuildBad {
        BuildBad::Memory
    }
}

fn copy_names(alloc: Global, names: &Names) -> Result<Names, AllocError>
    ensures { IfOk result (λ copy. copy ≡ names.now) }
{
    let mut copy = Names::new(alloc);
    for name in names.as_slice() {
        copy.push(name.copy(alloc)?)?;
    }
    Ok(copy)
}

// The plan of a query that this tree is built for.
fn plan_of(alloc: Global, query: &Query, tree: Boxed<Tree>) -> Result<Plan, AllocError>
    requires { 1 + size (tree_of tree) < 2 ^ 32 }
    ensures { IfOk result (λ plan. plan ≡ record { nodes = nodes_of (tree_of tree) 1; heads = query.now.heads; kinds = kinds_of (table_decls query.now.tables) (tree_of tree) }) }
{
    let kinds = kinds_of(alloc, query.tables.as_slice(), tree.get())?;
    let heads = copy_names(alloc, &query.heads)?;
    let nodes = nodes_of(alloc, tree.into_inner())?;
    Ok(Plan {
        nodes,
        heads,
        kinds,
    })
}

/// The plan of a query over tables of these sizes, in rows, with its sources joined as the choice says.
///
/// A bound query has exactly one plan for each choice. `TooWide` comes exactly where its first bound is above 10^34, with
/// that bound, or where it is not, and that of the rows below a SUM is above 10^18, with that one. `Memory` is want of
/// memory.
///
/// The plan's rows are those that the query asks for, so they are the same for each choice; it is valid for the query's
/// tables, and fits them.
pub fn build(alloc: Global, query: &Query, sizes: &[u64], choice: Choice) -> Result<Plan, BuildBad>
    requires bound { IsBound query.now }
    requires narrow { length query.now.outputs < 2 ^ 32 }
    ensures plan { (result ≡ built query.now sizes.now choice) ⊎ IsErrOf result bad.Memory }
    ensures rows { IfOk result (HasRowsOf query.now) }
    ensures valid { IfOk result (λ plan. IsValid plan (decls_in query.now)) }
    ensures fits { IfOk result (FitsDatabases query.now sizes.now) }
{
    tables_are_declared(query.tables.as_slice());
    let tree = tree_for(alloc, query, sizes, choice)?;
    match too_wide(sizes, tree.get()) {
        Some(bound) => Err(BuildBad::TooWide(bound)),
        None => Ok(plan_of(alloc, query, tree)?),
    }
}
