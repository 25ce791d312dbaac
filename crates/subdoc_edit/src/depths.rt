//! How deep a value nests, by the list of its nodes. Each node is looked at once.

ghost use Rattle.std.specs.Prelude.{◌≡◌, ◌≤◌, length};
ghost use Rattle.subdoc_edit.specs.GivenDepths.{IsDepth, ArePassed, first_end};

use crate::kinds::holds_others;
use json_spell::Node;

/// Parts that were gone through.
#[derive(Clone, Copy)]
pub struct Passed<'a> {
    /// How deep the deepest of them nests.
    pub depth: u8,
    /// The place in the text behind the last one's value.
    pub end: usize,
    /// The nodes behind theirs.
    pub rest: &'a [Node],
}

/// How deep the value at the front of the list nests, and the nodes behind its own.
#[cycle(depth_of)]
pub fn depth_of(nodes: &[Node]) -> (u8, &[Node])
    ensures shorter { length result.1.now ≤ length nodes.now }
    ensures depth { IsDepth nodes.now result.0 result.1.now }
{
    let (node, inner) = match nodes {
        [] => return (0, nodes),
        [node, inner @ ..] => (*node, inner),
    };
    if !holds_others(node.kind) {
        return (0, inner);
    }
    if node.children == 0 {
        return (1, inner);
    }
    let parts = pass(inner, node.children);
    (parts.depth.saturating_add(1), parts.rest)
}

/// The place behind the value at the front of the list.
fn end_of(nodes: &[Node]) -> usize
    ensures { result ≡ first_end nodes.now }
{
    match nodes {
        [] => 0,
        [node, ..] => node.to,
    }
}

/// Goes through so many parts at the front of the list.
#[cycle(depth_of)]
pub fn pass(nodes: &[Node], count: u32) -> Passed
    ensures shorter { length result.rest.now ≤ length nodes.now }
    ensures passed { ArePassed nodes.now count result.depth result.end result.rest.now }
{
    let mut deepest = 0;
    let mut end = 0;
    let mut rest = nodes;
    for _done in 0..count {
        end = end_of(rest);
        let (depth, behind) = depth_of(rest);
        deepest = deepest.max(depth);
        rest = behind;
    }
    Passed {
        depth: deepest,
        end,
        rest,
    }
}
