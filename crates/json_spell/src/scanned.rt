ghost use Rattle.std.specs.Prelude.{◌≡◌, ℕ, List, []};
ghost use Rattle.json_spell.specs.declared.node.Node.{Node};
ghost use Rattle.json_model.specs.Spelled.{Document, IsText};
ghost use Rattle.json_spell.specs.Nodes.{document_nodes};
ghost use Rattle.json_spell.specs.Places.{Scans, Finds};
ghost use Rattle.json_model.specs.declared.TheConstants.{MOST_DEEP};
ghost use Rattle.json_spell.specs.Reading.{document_at, WritesDocument};

use crate::node::{Node, Span};
use crate::scanning::value;
use crate::tokens::{Stop, skip_blanks};
use json_model::MOST_DEEP;
use std::alloc::Global;
use std::marker::Model;

/// The values of a text, in order of their first byte.
#[derive(Debug, Drop)]
pub struct Spans {
    nodes: Vec<Node>,
}

impl Model for Spans {
    ghost use Rattle.std.specs.Prelude.{List};
    ghost use Rattle.json_spell.specs.declared.node.Node.{Node};

    ghost Value = { List Node };

    ghost view = { λ spans. spans.nodes.items };
}

/// What bytes are.
#[derive(Debug, Drop)]
pub enum Scanned {
    /// A JSON text at most 32 deep, with these values.
    Json(Spans),
    /// None: no JSON text has the bytes up to and with this place as its front; or the bytes end
    /// too early, and this is their number.
    Not(usize),
    /// None: the bracket at this place opens depth 33.
    Deep(usize),
    /// Memory was refused, or the text has 2^32 values or more.
    NoMemory,
}

/// The values of a text, each before those in it.
pub fn nodes(spans: &Spans) -> &[Node]
    ensures { result.now ≡ spans.now }
{
    spans.nodes.as_slice()
}

/// Reads a whole text and adds the nodes of its values.
fn document(nodes: &mut Vec<Node>, text: &[u8]) -> Result<(), Stop>
    requires { nodes.old.items ≡ [] }
    ensures { WritesDocument (document_at MOST_DEEP text.now) nodes.new.items result }
{
    let key = Span { from: 0, to: 0 };
    let rest = value(nodes, text.len(), MOST_DEEP, key, skip_blanks(text))?;
    let left = skip_blanks(rest);
    if left.is_empty() {
        Ok(())
    } else {
        Err(Stop::Not(left.len()))
    }
}

/// What bytes are.
fn read(alloc: Global, text: &[u8]) -> Scanned
    ensures { Scans text.now result }
{
    let mut nodes = Vec::new(alloc);
    match document(&mut nodes, text) {
        Ok(()) => Scanned::Json(Spans { nodes }),
        Err(Stop::Not(left)) => Scanned::Not(text.len() - left),
        Err(Stop::Deep(left)) => Scanned::Deep(text.len() - left),
        Err(Stop::NoMemory) => Scanned::NoMemory,
    }
}

/// Reads bytes as a JSON text at most 32 deep, and tells where its values stand, or at which place
/// the bytes stop to be the front of one. It takes memory for the list of values alone.
pub fn scan(alloc: Global, text: &[u8]) -> Scanned
    ensures answer { Scans text.now result }
    ensures only { (d : Document) → IsText MOST_DEEP d text.now → Finds d result }
{
    read(alloc, text)
}

/// No two trees are spelled alike: a law, of which the function does nothing.
pub fn one_text()
    ensures { (most : ℕ) (bytes : List ℕ) (d e : Document)
        → IsText most d bytes → IsText most e bytes → d ≡ e }
{}
