//! How trees are drawn: a line for each node, behind those of its children.

ghost use Rattle.std.specs.Prelude.{◌≡◌, ◌++◌, List, drop, length, replicate, reverse, slice_index, IfOk, OnOk};
ghost use Rattle.js_parse_tool.specs.Drawn.{AreDrawn};
ghost use Rattle.js_parse_tool.specs.declared.draw.Line.{Line};

use crate::node::Node;
use crate::tree::Trees;
use std::alloc::{AllocError, Global};
use std::collections::VecDeque;

/// A line of a drawing: a node, and how many levels it stands under its root.
#[derive(Clone, Copy)]
pub(crate) struct Line {
    pub depth: usize,
    pub node: Node,
}

/// Takes the first depth; 0 where there is none.
fn take_first(depths: &mut VecDeque<usize>) -> usize
    ensures first { result ≡ slice_index depths.old.items 0 }
    ensures rest { depths.new.items ≡ drop 1 depths.old.items }
{
    depths.pop_front().unwrap_or(0)
}

/// Puts a depth before the others, so many times.
#[tactic(auto, using(crate::proofs::Drawing::one_in_front))]
fn put_first(depths: &mut VecDeque<usize>, count: usize, depth: usize) -> Result<(), AllocError>
    ensures { OnOk result (depths.new.items ≡ replicate count depth ++ depths.old.items) }
{
    for _ in 0..count {
        depths.push_front(depth)?;
    }
    Ok(())
}

/// The lines of so many trees, the last one first.
fn backwards(alloc: Global, nodes: &[Node], count: usize) -> Result<Vec<Line>, AllocError>
    ensures { IfOk result (λ lines. (drawn : List Line) → AreDrawn 0 count nodes.now drawn
        → lines.items ≡ reverse drawn) }
{
    let mut lines = Vec::new(alloc);
    // the depths of the trees that are still to come, the next one's first
    let mut depths = VecDeque::new(alloc);
    put_first(&mut depths, count, 0)?;
    let mut rest = nodes;
    'nodes: while let Some((node, before)) = rest.split_last() {
        let depth = take_first(&mut depths);
        put_first(&mut depths, node.children, depth + 1)?;
        lines.push(Line { depth, node: *node })?;
        rest = before;
    }
    Ok(lines)
}

/// The lines of trees.
#[tactic(auto, using(crate::proofs::Drawing::lines_of_trees))]
pub(crate) fn drawn(alloc: Global, trees: &Trees<'_>) -> Result<Vec<Line>, AllocError>
    ensures { IfOk result (λ lines. AreDrawn 0 (length trees.now.roots) trees.now.nodes lines.items) }
{
    let mut lines = backwards(alloc, trees.nodes(), trees.mark())?;
    lines.reverse();
    Ok(lines)
}
