//! Laws of the tables, for the crates that make replies and keep what requests bring.

ghost use Rattle.kv_request.specs.declared.reply.Reply.{Reply};
ghost use Rattle.kv_request.specs.declared.request.Request.{Request};
ghost use Rattle.doc_model.specs.declared.key.DocKey.{DocKey};
ghost use Rattle.leb_collections.specs.Leb128.{AreBytes};
ghost use Rattle.kv_request.specs.Tables.{IsReply, IsSmallReply, IsRequest, IsSmallRequest, IsNamed, key_from, key_spelling};
ghost use Rattle.kv_request.specs.Opcodes.{form_of};
ghost use Rattle.kv_request.specs.declared.opcode.Command.TheVariants as commands;
ghost use Rattle.json_model.specs.declared.asked.Lookup.{Lookup};
ghost use Rattle.json_model.specs.declared.asked.Edit.{Edit};
ghost use Rattle.kv_request.specs.declared.request.Spec.{Spec};
ghost use Rattle.kv_request.specs.Multi.{specs_bytes, specs_in, FitsSpec};
ghost use Rattle.std.specs.Prelude.{◌≡◌, ℕ, Bool, List, [], ◌∷◌, Some};
ghost use Rattle.std.specs.List.{AllByRecursion};

use crate::multi::MOST_SPECS;
use crate::parts::{ADDS_DOCUMENT, EXPANDS_MACROS, IS_XATTR, MAKES_DOCUMENT, MAKES_PARENTS};
use crate::reading::{
    DURABILITY, KEY_LIMIT, MANIFEST_LIMIT, OTHER_KEY_LIMIT, USUAL_TIMEOUT, VALUE_LIMIT,
};

/// A reply whose numbers fit and whose parts are short has a frame with a spelling, whatever was granted: the
/// longest such frame is below the greatest body.
pub fn small_replies()
    ensures { (reply : Reply) → IsSmallReply reply → IsReply reply }
{}

/// Whatever frame a request comes from, its numbers fit, its key is neither empty nor too long, its value is within
/// the limit, and it has no more specs than may be.
pub fn requests_are_small()
    ensures { (made : Request) → IsRequest made → IsSmallRequest made }
{}

/// A key is read from the bytes that spell it, and no other bytes are read as it, whether collections are granted or not.
pub fn keys_as_spelled()
    ensures read { (granted : Bool) (key : DocKey) →
        IsNamed granted key → key_from granted (key_spelling granted key) ≡ Some key }
    ensures spelled { (granted : Bool) (bytes : List ℕ) (key : DocKey) →
        AreBytes bytes → key_from granted bytes ≡ Some key → bytes ≡ key_spelling granted key }
{}

/// Specs are read from the bytes that spell them, and no other bytes are read as them, whether they are look-ups or
/// edits.
pub fn specs_as_spelled()
    ensures read { (edits : Bool) (specs : List Spec) →
        AllByRecursion (FitsSpec edits) specs → specs_in edits (specs_bytes edits specs) ≡ Some specs }
    ensures spelled { (edits : Bool) (bytes : List ℕ) (specs : List Spec) →
        AreBytes bytes → specs_in edits bytes ≡ Some specs → bytes ≡ specs_bytes edits specs }
{}

/// The limits are these numbers of bytes, the durability is this id, and the timeout these milliseconds.
pub fn request_numbers()
    ensures key_limit { KEY_LIMIT ≡ 250 }
    ensures other_key_limit { OTHER_KEY_LIMIT ≡ 246 }
    ensures manifest_limit { MANIFEST_LIMIT ≡ 1048576 }
    ensures value_limit { VALUE_LIMIT ≡ 20971520 }
    ensures durability { DURABILITY ≡ 1 }
    ensures usual_timeout { USUAL_TIMEOUT ≡ 30000 }
{}

/// The flags of a path and those of a document are these bits, a request has at most so many specs, and the extras of
/// look-ups and of edits have one of these numbers of bytes.
pub fn part_numbers()
    ensures makes_parents { MAKES_PARENTS ≡ 1 }
    ensures is_xattr { IS_XATTR ≡ 4 }
    ensures expands_macros { EXPANDS_MACROS ≡ 16 }
    ensures makes_document { MAKES_DOCUMENT ≡ 1 }
    ensures adds_document { ADDS_DOCUMENT ≡ 2 }
    ensures most_specs { MOST_SPECS ≡ 16 }
    ensures looks { (lookup : Lookup) → (form_of (commands.Look lookup)).extras ≡ 3 ∷ 4 ∷ [] }
    ensures edits { (edit : Edit) → (form_of (commands.Edit edit)).extras ≡ 3 ∷ 4 ∷ 7 ∷ 8 ∷ [] }
    ensures multi_looks { (form_of commands.MultiLook).extras ≡ 0 ∷ 1 ∷ [] }
    ensures multi_edits { (form_of commands.MultiEdit).extras ≡ 0 ∷ 1 ∷ 4 ∷ 5 ∷ [] }
{}
