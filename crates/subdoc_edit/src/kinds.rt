ghost use Rattle.std.specs.Prelude.{◌≡◌};
ghost use Rattle.subdoc_edit.specs.Kinds.{holds_others};

use json_model::Kind;

/// Whether a value of this kind holds others.
pub fn holds_others(kind: Kind) -> bool
    ensures { result ≡ holds_others kind }
{
    match kind {
        Kind::Object | Kind::Array => true,
        _ => false,
    }
}
