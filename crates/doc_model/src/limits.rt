//! How large a document's parts, and a manifest, may be: each limit stands here alone.

ghost use Rattle.std.specs.Prelude.{◌≡◌};

/// How many bytes the name of a document has at most in the collection that is there from the start.
pub const KEY_LIMIT: usize = 250;

/// How many bytes the name of a document has at most in any other collection.
pub const OTHER_KEY_LIMIT: usize = 246;

/// How many bytes a value has at most.
pub const VALUE_LIMIT: usize = 20_971_520;

/// How many bytes the text of a manifest has at most.
pub const MANIFEST_LIMIT: usize = 1_048_576;

/// The limits are these numbers.
pub fn limit_numbers()
    ensures key { KEY_LIMIT ≡ 250 }
    ensures other_key { OTHER_KEY_LIMIT ≡ 246 }
    ensures value { VALUE_LIMIT ≡ 20971520 }
    ensures manifest { MANIFEST_LIMIT ≡ 1048576 }
{}
