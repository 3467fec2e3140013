//! The pipelines of a plan's operators, and which operators feed them.
ghost use Rattle.std.specs.Prelude.{◌≡◌, ◌+◌, ◌-◌, ◌<◌, ◌≤◌, ◌^◌, true, length, slice_get, Some, IfOk, option_map};
ghost use Rattle.pm_plan.specs.Tree.{Tree, streams};
ghost use Rattle.pm_plan.specs.Preorder.{tree_of, IsNumbered, IsTreeAt};
ghost use Rattle.pm_plan.specs.Roots.{unary_of, method_of};
ghost use Rattle.pm_estim.specs.Lists.{pipes_in};
ghost use Rattle.pm_estim.specs.Steps.{Stands, is_built, numbers_below, IsPlaced};

use pm_plan::{Method, Node, Plan, Root, Unary, number_after, root_at};
use std::alloc::{AllocError, Global};
use std::marker::Model;

/// Where an operator stands: the number of its pipeline, from 1, and whether it feeds it.
#[derive(Clone, Copy, Debug, PartialEq, Eq)]
pub struct Pipe {
    pub number: u32,
    pub driver: bool,
}

/// The number of a tree's own pipeline, and the number that the next one takes.
#[derive(Clone, Copy)]
struct Numbers {
    own: usize,
    next: usize,
}

impl Numbers {
    // Those below: where there is a cut, the next pipeline begins.
    fn below(self, cut: bool) -> Numbers
        requires { self.next < 2 ^ 63 }
        ensures { result ≡ numbers_below cut self }
    {
        if cut {
            Numbers {
                own: self.next,
                next: self.next + 1,
            }
        } else {
            self
        }
    }
}

/// Whether an operator hands out what a row of its child calls for right after that row.
fn streams(op: Unary<'_>) -> bool
    ensures { result ≡ streams (unary_of op.entry) }
{
    match op {
        Unary::Filter(_) | Unary::Project(_) => true,
        Unary::Sort(_) | Unary::Group(..) => false,
    }
}

/// Whether the right side of a join is a pipeline of its own.
fn is_built(method: Method) -> bool
    ensures { result ≡ is_built (method_of method) }
{
    match method {
        Method::Hash { .. } => true,
        Method::Merge => false,
    }
}

/// Adds the nodes of the tree of number `n`, and gives the number of the pipeline that comes next.
fn place(
    nodes: &[Node],
    n: u32,
    numbers: Numbers,
    pipes: &mut Vec<Pipe>,
) -> Result<usize, AllocError>
    requires stands { Stands nodes.now n }
    requires own { numbers.own ≤ n }
    requires next { numbers.next ≤ n + 1 }
    ensures { IfOk result (λ next. (t : Tree) → IsTreeAt nodes.now t n → IsPlaced t numbers pipes.old.items pipes.new.items next) }
{
    let Some(root) = root_at(nodes, n as usize) else {
        unreachable!()
    };
    let own = Pipe {
        number: numbers.own as u32,
        driver: false,
    };
    match root {
        Root::Scan { .. } => {
            pipes.push(Pipe {
                driver: true,
                ..own
            })?;
            Ok(numbers.next)
        }
        Root::Over { op, child } => {
            let streams = streams(op);
            pipes.push(Pipe {
                driver: !streams,
                ..own
            })?;
            let next = place(nodes, child, numbers.below(!streams), pipes)?;
            Ok(next)
        }
        Root::Join {
            method,
            left,
            right,
            ..
        } => {
            pipes.push(own)?;
            let next = place(nodes, left, numbers, pipes)?;
            let rest = Numbers { next, ..numbers };
            let last = place(nodes, right, rest.below(is_built(method)), pipes)?;
            Ok(last)
        }
        Root::Index { left, .. } => {
            pipes.push(own)?;
            let next = place(nodes, left, numbers, pipes)?;
            pipes.push(own)?;
            Ok(next)
        }
        Root::Seek { .. } => unreachable!(),
    }
}

/// The pipelines of a plan's operators, in the plan's order.
#[derive(Debug, Drop)]
pub struct Pipes {
    pipes: Vec<Pipe>,
}

impl Model for Pipes {
    ghost use Rattle.std.specs.Prelude.{List};
    ghost use Rattle.pm_estim.specs.declared.pipes.Pipe.{Pipe};

    ghost Value = { List Pipe };

    ghost view = { λ a. a.pipes.items };
}

impl Pipes {
    /// The pipelines of a plan.
    pub fn of(alloc: Global, plan: &Plan) -> Result<Pipes, AllocError>
        requires { IsNumbered plan.now.nodes }
        ensures { IfOk result (λ pipes. pipes ≡ pipes_in (tree_of plan.now.nodes)) }
    {
        let mut pipes = Vec::with_capacity(alloc, plan.nodes.len())?;
        let numbers = Numbers { own: 1, next: 2 };
        let _next = place(plan.nodes.as_slice(), 1, numbers, &mut pipes)?;
        Ok(Pipes { pipes })
    }

    /// The number of the pipeline of this operator, both counted from 1.
    pub fn pipe(&self, node: u32) -> u32
        requires from_one { 1 ≤ node }
        requires there { node ≤ length self.now }
        ensures { option_map (λ pipe. pipe.number) (slice_get self.now (node - 1)) ≡ Some result }
    {
        self.pipes[node as usize - 1].number
    }

    /// Whether this operator, counted from 1, is a driver node: it feeds its pipeline.
    pub fn driver(&self, node: u32) -> bool
        requires from_one { 1 ≤ node }
        requires there { node ≤ length self.now }
        ensures { option_map (λ pipe. pipe.driver) (slice_get self.now (node - 1)) ≡ Some result }
    {
        self.pipes[node as usize - 1].driver
    }

    /// Where each operator stands, in the plan's order.
    pub fn as_slice(&self) -> &[Pipe]
        ensures { result.now ≡ self.now }
    {
        self.pipes.as_slice()
    }
}
