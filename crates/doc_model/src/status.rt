ghost use Rattle.std.specs.Prelude.{◌≡◌};
ghost use Rattle.doc_model.specs.declared.status.Refused.TheVariants as refusals;

use kv_edge::NoMemory;

/// The status of a reply. Each that a reply may have is named here.
#[derive(Clone, Copy, Debug, PartialEq, Eq)]
pub struct Status {
    /// The number that stands for it in a reply.
    pub code: u16,
}

impl Status {
    /// The request was done.
    pub const SUCCESS: Status = Status { code: 0x0000 };

    /// There is no such document.
    pub const KEY_ENOENT: Status = Status { code: 0x0001 };

    /// There is a document, or it has another CAS.
    pub const KEY_EEXISTS: Status = Status { code: 0x0002 };

    /// Something is larger than its limit.
    pub const E2BIG: Status = Status { code: 0x0003 };

    /// The request breaks its form.
    pub const EINVAL: Status = Status { code: 0x0004 };

    /// There is no document to add to.
    pub const NOT_STORED: Status = Status { code: 0x0005 };

    /// The value is no number that can be counted.
    pub const DELTA_BADVAL: Status = Status { code: 0x0006 };

    /// The vbucket is not served here.
    pub const NOT_MY_VBUCKET: Status = Status { code: 0x0007 };

    /// The opcode is not known.
    pub const UNKNOWN_COMMAND: Status = Status { code: 0x0081 };

    /// Memory was refused.
    pub const ENOMEM: Status = Status { code: 0x0082 };

    /// The request is known and not served.
    pub const NOT_SUPPORTED: Status = Status { code: 0x0083 };

    /// The store has no room; ask again.
    pub const EBUSY: Status = Status { code: 0x0085 };

    /// A device failed; ask again.
    pub const ETMPFAIL: Status = Status { code: 0x0086 };

    /// There is no such collection.
    pub const UNKNOWN_COLLECTION: Status = Status { code: 0x0088 };

    /// The manifest breaks a rule.
    pub const CANNOT_APPLY_MANIFEST: Status = Status { code: 0x008a };

    /// The manifest that is there is newer.
    pub const MANIFEST_IS_AHEAD: Status = Status { code: 0x008b };

    /// There is no such scope.
    pub const UNKNOWN_SCOPE: Status = Status { code: 0x008c };

    /// There is no such level of durability.
    pub const DURABILITY_INVALID_LEVEL: Status = Status { code: 0x00a0 };

    /// There are too few copies for a durable write.
    pub const DURABILITY_IMPOSSIBLE: Status = Status { code: 0x00a1 };

    /// A durable write of the key is under way.
    pub const SYNC_WRITE_IN_PROGRESS: Status = Status { code: 0x00a2 };

    /// What became of the durable write is not known.
    pub const SYNC_WRITE_AMBIGUOUS: Status = Status { code: 0x00a3 };

    /// A durable write that was taken over is under way.
    pub const SYNC_WRITE_RE_COMMIT_IN_PROGRESS: Status = Status { code: 0x00a4 };

    /// The path leads nowhere.
    pub const PATH_ENOENT: Status = Status { code: 0x00c0 };

    /// The path meets another kind of value.
    pub const PATH_MISMATCH: Status = Status { code: 0x00c1 };

    /// The path breaks its form.
    pub const PATH_EINVAL: Status = Status { code: 0x00c2 };

    /// The path is too long.
    pub const PATH_E2BIG: Status = Status { code: 0x00c3 };

    /// The document is nested too deep.
    pub const DOC_E2DEEP: Status = Status { code: 0x00c4 };

    /// The value cannot stand there.
    pub const VALUE_CANT_INSERT: Status = Status { code: 0x00c5 };

    /// The document is no JSON text.
    pub const DOC_NOT_JSON: Status = Status { code: 0x00c6 };

    /// The number is out of range.
    pub const NUM_ERANGE: Status = Status { code: 0x00c7 };

    /// The delta breaks its form.
    pub const DELTA_EINVAL: Status = Status { code: 0x00c8 };

    /// The path is there already.
    pub const PATH_EEXISTS: Status = Status { code: 0x00c9 };

    /// The result would be nested too deep.
    pub const VALUE_ETOODEEP: Status = Status { code: 0x00ca };

    /// These requests cannot stand together.
    pub const INVALID_COMBO: Status = Status { code: 0x00cb };

    /// At least one of several paths failed.
    pub const MULTI_PATH_FAILURE: Status = Status { code: 0x00cc };

    /// These flags cannot stand together.
    pub const XATTR_INVALID_FLAG_COMBO: Status = Status { code: 0x00ce };

    /// The paths name several extended attributes.
    pub const XATTR_INVALID_KEY_COMBO: Status = Status { code: 0x00cf };

    /// There is no such macro.
    pub const XATTR_UNKNOWN_MACRO: Status = Status { code: 0x00d0 };

    /// There is no such virtual attribute.
    pub const XATTR_UNKNOWN_VATTR: Status = Status { code: 0x00d1 };

    /// Extended attributes have to come first.
    pub const INVALID_XATTR_ORDER: Status = Status { code: 0x00d4 };
}

/// Why a request wasn't done.
#[derive(Clone, Copy, Debug, PartialEq, Eq)]
pub enum Refused {
    /// The reply's status.
    Status(Status),
    /// Memory was refused.
    NoMemory,
}

impl From<NoMemory> for Refused {
    ghost from_gives = { λ _ refused. refused ≡ refusals.NoMemory };

    fn from(_refused: NoMemory) -> Refused {
        Refused::NoMemory
    }
}
