//! Whether the nodes of a plan are one tree in preorder.
ghost use Rattle.std.specs.Prelude.{◌≡◌, ◌↔◌, ◌+◌, ◌-◌, ◌≤◌, ℕ, IsTrue, length};
ghost use Rattle.pm_plan.specs.Preorder.{IsNumbered};
ghost use Rattle.pm_plan.specs.Standing.{IsSeekAt, IsEnd};

use crate::plan::Node;
use crate::root::{Root, root_at};

// Whether a Seek of this left side stands at this number.
fn is_seek(nodes: &[Node], n: usize, left: u32) -> bool
    ensures { IsTrue result ↔ IsSeekAt nodes.now n left }
{
    let Some(root) = root_at(nodes, n) else {
        return false;
    };
    match root {
        Root::Seek { left: own, .. } => own == left,
        _ => false,
    }
}

// The number after the tree that stands at this one, or None where none does.
fn subtree_end(nodes: &[Node], n: usize) -> Option<usize>
    ensures { IsEnd nodes.now n result }
{
    let root = root_at(nodes, n)?;
    match root {
        Root::Scan { .. } => Some(n + 1),
        Root::Over { child, .. } => {
            if child as usize != n + 1 {
                return None;
            }
            subtree_end(nodes, n + 1)
        }
        Root::Join { left, right, .. } => {
            if left as usize != n + 1 {
                return None;
            }
            let end = subtree_end(nodes, n + 1)?;
            if right as usize != end {
                return None;
            }
            subtree_end(nodes, end)
        }
        Root::Index { left, seek, .. } => {
            if left as usize != n + 1 {
                return None;
            }
            let end = subtree_end(nodes, n + 1)?;
            if seek as usize == end && is_seek(nodes, end, left) {
                Some(end + 1)
            } else {
                None
            }
        }
        Root::Seek { .. } => None,
    }
}

/// Whether the nodes are one tree, numbered in preorder from 1.
pub fn is_numbered(nodes: &[Node]) -> bool
    ensures { IsTrue result ↔ IsNumbered nodes.now }
{
    subtree_end(nodes, 1) == Some(nodes.len() + 1)
}
