//! The lines of a plan.
ghost use Rattle.std.specs.Prelude.{◌≡◌, ◌++◌, OnOk, IfOk, codes, decimal, string_bytes};
ghost use Rattle.pm_plan.specs.PlanLines.{names_text, sides_word, total_word, flags_text, hash_word, two_text, operator_text, node_line, plan_lines};

use crate::plan::{Label, Node, Plan, Unique};
use itoa::Buffer;
use pm_lexer::put_name;
use pm_values::Txt;
use std::alloc::{AllocError, Global};

/// The lines of a plan's operators by ascending number, each ended by a line feed: the number, the kind, the children
/// or the table with its alias, and for a join and a Seek its flags. Names stand in their canonical form.
pub fn plan_text(alloc: Global, plan: &Plan) -> Result<Txt, AllocError>
    ensures { IfOk result (λ text. text ≡ plan_lines 1 plan.now.nodes) }
{
    let mut out = String::new(alloc);
    for (position, node) in plan.nodes.as_slice().iter().enumerate() {
        put_node(&mut out, position + 1, node)?;
    }
    Txt::new(alloc, out.as_str())
}

/// The line of one operator, with this number, ended by a line feed.
pub fn node_text(alloc: Global, number: usize, node: &Node) -> Result<Txt, AllocError>
    ensures { IfOk result (λ text. text ≡ node_line number node.now) }
{
    let mut out = String::new(alloc);
    put_node(&mut out, number, node)?;
    Txt::new(alloc, out.as_str())
}

fn put_node(out: &mut String, number: usize, node: &Node) -> Result<(), AllocError>
    ensures { OnOk result (string_bytes out.new ≡ string_bytes out.old ++ node_line number node.now) }
{
    out.push_str("N ")?;
    put_number(out, number)?;
    out.push_str(" ")?;
    put_operator(out, node)?;
    out.push_str("\n")?;
    Ok(())
}

fn put_operator(out: &mut String, node: &Node) -> Result<(), AllocError>
    ensures { OnOk result (string_bytes out.new ≡ string_bytes out.old ++ operator_text node.now) }
{
    match node {
        Node::Scan { label, .. } => {
            out.push_str("scan ")?;
            put_names(out, label)
        }
        Node::Filter { child, .. } => put_child(out, "filter ", *child),
        Node::Project { child, .. } => put_child(out, "project ", *child),
        Node::Sort { child, .. } => put_child(out, "sort ", *child),
        Node::Group { child, .. } => put_child(out, "group ", *child),
        Node::Hash {
            left,
            right,
            unique,
            pad,
            ..
        } => put_join(out, hash_word(*pad), *left, *right, *unique),
        Node::Merge {
            left,
            right,
            unique,
            ..
        } => put_join(out, "merge ", *left, *right, *unique),
        Node::Seek { label, unique, .. } => {
            out.push_str("seek ")?;
            put_names(out, label)?;
            put_flags(out, *unique)
        }
        Node::Index { left, seek, .. } => {
            out.push_str("index ")?;
            put_two(out, *left, *seek)
        }
    }
}

fn put_child(out: &mut String, kind: &str, child: u32) -> Result<(), AllocError>
    ensures { OnOk result (string_bytes out.new ≡ string_bytes out.old ++ kind.now ++ decimal child) }
{
    out.push_str(kind)?;
    put_number(out, child as usize)
}

fn put_join(
    out: &mut String,
    kind: &str,
    left: u32,
    right: u32,
    unique: Unique,
) -> Result<(), AllocError>
    ensures { OnOk result (string_bytes out.new ≡ string_bytes out.old ++ kind.now ++ two_text left right ++ flags_text unique) }
{
    out.push_str(kind)?;
    put_two(out, left, right)?;
    put_flags(out, unique)
}

fn hash_word(pad: bool) -> &'static str
    ensures { result.now ≡ hash_word pad }
{
    if pad { "lefthash " } else { "hash " }
}

fn put_two(out: &mut String, left: u32, right: u32) -> Result<(), AllocError>
    ensures { OnOk result (string_bytes out.new ≡ string_bytes out.old ++ two_text left right) }
{
    put_number(out, left as usize)?;
    out.push_str(" ")?;
    put_number(out, right as usize)
}

fn put_flags(out: &mut String, unique: Unique) -> Result<(), AllocError>
    ensures { OnOk result (string_bytes out.new ≡ string_bytes out.old ++ flags_text unique) }
{
    out.push_str(" unique=")?;
    out.push_str(match (unique.left, unique.right) {
        (false, false) => "none",
        (true, false) => "left",
        (false, true) => "right",
        (true, true) => "both",
    })?;
    if unique.total {
        out.push_str(" total")?;
    }
    Ok(())
}

// A table's name and its alias, each in its canonical form.
fn put_names(out: &mut String, label: &Label) -> Result<(), AllocError>
    ensures { OnOk result (string_bytes out.new ≡ string_bytes out.old ++ names_text label.now) }
{
    put_name(out, &label.table)?;
    out.push_str(" ")?;
    put_name(out, &label.alias)
}

fn put_number(out: &mut String, number: usize) -> Result<(), AllocError>
    ensures { OnOk result (string_bytes out.new ≡ string_bytes out.old ++ decimal number) }
{
    let mut buffer = Buffer::new();
    out.push_str(buffer.format(number))?;
    Ok(())
}
