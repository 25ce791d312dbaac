ghost use Rattle.std.specs.Prelude.{◌≡◌, ◌+◌, ◌-◌, ◌≤◌, ◌++◌, ◌∷◌, [], length};
ghost use Rattle.std.specs.Prelude.{OnOk, IfErr, MatchResult};
ghost use Rattle.json_spell.specs.Nodes.{kind_of};
ghost use Rattle.json_spell.specs.Tokens.{seen};
ghost use Rattle.json_spell.specs.Reading.{key_at, IsAt};
ghost use Rattle.json_spell.specs.Reading.{WritesLeaf, WritesParts, WritesInner, WritesValue};

use crate::node::{Node, Span};
use crate::pieces::{behind_byte, closed, key_end, leaf_end, part_end, shape_of};
use crate::tokens::{Stop, kind_at, skip_blanks};
use json_model::{Kind, Shape};

/// Where the key stands of a part that begins here, and the bytes of its value and behind.
#[tactic(auto, unfolding(crate::specs::Reading::head_at))]
fn key_at<'a>(end: usize, shape: Shape, bytes: &'a [u8]) -> Result<(Span, &'a [u8]), Stop>
    requires { length bytes.now ≤ end }
    ensures { seen (λ x. (x.0, x.1.now)) result ≡ key_at (end - length bytes.now) shape bytes.now }
{
    match shape {
        Shape::Array => Ok((Span { from: 0, to: 0 }, skip_blanks(bytes))),
        Shape::Object => {
            let key = skip_blanks(bytes);
            let rest = key_end(key)?;
            let value = behind_byte(b':', skip_blanks(rest))?;
            let span = Span {
                from: end - key.len(),
                to: end - rest.len(),
            };
            Ok((span, skip_blanks(value)))
        }
    }
}

/// A number of nodes, where a node can hold it.
fn number(count: usize) -> Result<u32, Stop>
    ensures { MatchResult result (λ n. n ≡ count) (λ stop. stop ≡ Stop.NoMemory) }
{
    match u32::try_from(count) {
        Ok(n) => Ok(n),
        Err(_) => Err(Stop::NoMemory),
    }
}

/// Adds a node at the end.
fn add_node(nodes: &mut Vec<Node>, node: Node) -> Result<(), Stop>
    ensures ok { OnOk result (nodes.new.items ≡ nodes.old.items ++ node ∷ []) }
    ensures err { IfErr result (λ stop. stop ≡ Stop.NoMemory) }
{
    match nodes.push(node) {
        Ok(()) => Ok(()),
        Err(_) => Err(Stop::NoMemory),
    }
}

/// Reads a leaf of this kind, of which the first byte is known, and adds its node.
fn leaf<'a>(
    nodes: &mut Vec<Node>,
    end: usize,
    key: Span,
    kind: Kind,
    bytes: &'a [u8],
) -> Result<&'a [u8], Stop>
    requires room { length bytes.now ≤ end }
    requires at { IsAt kind bytes.now }
    ensures { WritesLeaf kind end key bytes.now nodes.old.items nodes.new.items result }
{
    let rest = leaf_end(kind, bytes)?;
    let after = number(nodes.len() + 1)?;
    let node = Node {
        kind,
        from: end - bytes.len(),
        to: end - rest.len(),
        key_from: key.from,
        key_to: key.to,
        children: 0,
        after,
    };
    add_node(nodes, node)?;
    Ok(rest)
}

/// The kind of a shape.
fn kind_of(shape: Shape) -> Kind
    ensures { result ≡ kind_of shape }
{
    match shape {
        Shape::Object => Kind::Object,
        Shape::Array => Kind::Array,
    }
}

/// Reads the parts of an object or an array, adds their nodes, and counts them.
#[cycle(value)]
fn parts<'a>(
    nodes: &mut Vec<Node>,
    end: usize,
    room: u8,
    shape: Shape,
    bytes: &'a [u8],
) -> Result<(&'a [u8], usize), Stop>
    requires { length bytes.now ≤ end }
    ensures { WritesParts room shape end bytes.now nodes.old.items nodes.new.items result }
{
    let mut rest = bytes;
    let mut count = 0;
    loop {
        let (key, at_value) = key_at(end, shape, rest)?;
        let behind = value(nodes, end, room, key, at_value)?;
        let (more, next) = part_end(shape, skip_blanks(behind))?;
        rest = next;
        count += 1;
        if !more {
            return Ok((rest, count));
        }
    }
}

/// Reads what stands behind an opening bracket, adds the nodes in it, and counts its parts.
#[cycle(value)]
fn inner<'a>(
    nodes: &mut Vec<Node>,
    end: usize,
    room: u8,
    shape: Shape,
    bytes: &'a [u8],
) -> Result<(&'a [u8], usize), Stop>
    requires { length bytes.now ≤ end }
    ensures { WritesInner room shape end bytes.now nodes.old.items nodes.new.items result }
{
    match closed(shape, skip_blanks(bytes)) {
        Some(rest) => Ok((rest, 0)),
        None => parts(nodes, end, room, shape, bytes),
    }
}

/// Reads an object or an array and adds its nodes.
#[cycle(value)]
fn group<'a>(
    nodes: &mut Vec<Node>,
    end: usize,
    room: u8,
    key: Span,
    shape: Shape,
    bytes: &'a [u8],
) -> Result<&'a [u8], Stop>
    requires room { length bytes.now ≤ end }
    requires at { IsAt (kind_of shape) bytes.now }
    ensures { WritesValue room end key bytes.now nodes.old.items nodes.new.items result }
{
    if room == 0 {
        return Err(Stop::Deep(bytes.len()));
    }
    let behind = match bytes {
        [] => return Err(Stop::Not(0)),
        [_, behind @ ..] => behind,
    };
    let index = nodes.len();
    let mut node = Node {
        kind: kind_of(shape),
        from: end - bytes.len(),
        to: 0,
        key_from: key.from,
        key_to: key.to,
        children: 0,
        after: 0,
    };
    add_node(nodes, node)?;
    let (rest, children) = inner(nodes, end, room - 1, shape, behind)?;
    node.to = end - rest.len();
    node.children = number(children)?;
    node.after = number(nodes.len())?;
    nodes[index] = node;
    Ok(rest)
}

/// Reads a value and adds its nodes.
#[cycle(value)]
pub fn value<'a>(
    nodes: &mut Vec<Node>,
    end: usize,
    room: u8,
    key: Span,
    bytes: &'a [u8],
) -> Result<&'a [u8], Stop>
    requires { length bytes.now ≤ end }
    ensures { WritesValue room end key bytes.now nodes.old.items nodes.new.items result }
{
    let byte = match bytes {
        [] => return Err(Stop::Not(0)),
        [byte, ..] => *byte,
    };
    let kind = match kind_at(byte) {
        Some(kind) => kind,
        None => return Err(Stop::Not(bytes.len())),
    };
    match shape_of(kind) {
        Some(shape) => group(nodes, end, room, key, shape, bytes),
        None => leaf(nodes, end, key, kind, bytes),
    }
}
