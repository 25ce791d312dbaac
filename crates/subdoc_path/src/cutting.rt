//! Where the bytes of a value stand in a text.

ghost use Rattle.subdoc_path.specs.Cutting.{IsValueAt, CutsOut};

use json_spell::{Span, Spans, nodes};

/// From where to where the bytes of a value of this text stand. An edit of that value leaves the
/// bytes before and behind it.
pub fn value_span(text: &[u8], spans: &Spans, at: usize) -> Span
    requires { IsValueAt text.now spans.now at }
    ensures { CutsOut text.now at result }
{
    match nodes(spans).get(at) {
        Some(node) => Span {
            from: node.from,
            to: node.to,
        },
        None => Span {
            from: 0,
            to: text.len(),
        },
    }
}
