//! From one member or element to the next by the list of nodes.

ghost use Rattle.subdoc_path.specs.Standing.{AreMembers, FindsMember, AreElements, FindsElement};

use crate::keys::{cut, stands_for};
use json_spell::Node;

/// The place in the list of the value of the first member of this name, of the members whose values
/// stand from `from` on to `end`.
pub fn member(text: &[u8], nodes: &[Node], from: usize, end: usize, name: &[u8]) -> Option<usize>
    requires { AreMembers text.now nodes.now from end }
    ensures { FindsMember text.now nodes.now from end name.now result }
{
    let mut next = from;
    while next < end {
        let node = match nodes.get(next) {
            Some(node) => *node,
            None => return None,
        };
        if stands_for(cut(text, node.key_from, node.key_to), name) {
            return Some(next);
        }
        next = node.after as usize;
    }
    None
}

/// The place in the list of the value of the element of this number, of those whose values stand
/// from `from` on.
pub fn element(nodes: &[Node], from: usize, number: u32) -> usize
    requires { AreElements nodes.now from number }
    ensures { FindsElement nodes.now from number result }
{
    let mut next = from;
    for _passed in 0..number {
        match nodes.get(next) {
            Some(node) => next = node.after as usize,
            None => return next,
        }
    }
    next
}
