use crate::parts::IS_XATTR;
use doc_model::DocKey;
use kv_edge::{Bytes, Seq};

/// What a connection asked for and was granted.
#[derive(Clone, Copy, Debug, PartialEq, Eq)]
pub struct Features {
    /// Replies to writes tell term and sequence number.
    pub token: bool,
    /// Replies tell by their datatype whether a value is JSON.
    pub json: bool,
    /// Keys begin with a collection's id.
    pub collections: bool,
}

/// How far a write has to have come before it is answered.
#[derive(Clone, Copy, Debug, PartialEq, Eq)]
pub struct Durability {
    /// 1 to 3.
    pub level: u8,
    /// Milliseconds, at least 1.
    pub timeout: u16,
}

/// Which documents a store takes.
#[derive(Clone, Copy, Debug, PartialEq, Eq)]
pub enum Mode {
    /// Any, whether a document is there or not.
    Set,
    /// Those whose key has no document.
    Add,
    /// Those whose key has a document.
    Replace,
}

/// A path into a document, what is asked there, and what comes with it.
#[derive(Debug, PartialEq, Eq, Drop)]
pub struct Spec {
    /// The opcode of a look-up or an edit.
    pub opcode: u8,
    /// As the client spelt them: see `MAKES_PARENTS`, `IS_XATTR` and `EXPANDS_MACROS`.
    pub flags: u8,
    /// The path's bytes, which may be none or no path.
    pub path: Bytes,
    /// What comes with an edit, empty where nothing does.
    pub value: Bytes,
}

impl Spec {
    ghost use Rattle.std.specs.Prelude.{◌≡◌};
    ghost use Rattle.kv_request.specs.Parts.{is_attribute};

    /// Whether the path leads into the document's attributes, and not into its value.
    pub fn is_attribute(&self) -> bool
        ensures { result ≡ is_attribute self.now }
    {
        self.flags & IS_XATTR != 0
    }
}

/// What a request asks for, with what that needs.
#[derive(Debug, PartialEq, Eq, Drop)]
pub enum Body {
    /// The features that the client asks for, in its order.
    Hello {
        wanted: Seq<u16>,
    },
    /// Nothing, but for a reply.
    Noop,
    /// The version.
    Version,
    /// The end of the connection.
    Quit,
    /// The document of the key.
    Get {
        key: DocKey,
    },
    /// A document to store, with the client's flags and an expiry as the client spelt it: 0 for none, seconds from now
    /// or since 1970.
    Store {
        key: DocKey,
        mode: Mode,
        flags: u32,
        expiry: u32,
        value: Bytes,
    },
    /// The document of the key, to be deleted.
    Delete {
        key: DocKey,
    },
    /// The number that is the document of the key, to be counted up or down. Where there is none, `initial` is stored
    /// with the expiry.
    Count {
        key: DocKey,
        up: bool,
        delta: u64,
        initial: u64,
        expiry: u32,
    },
    /// Bytes to add to the document of the key, before its value where `front`, else behind it.
    Join {
        key: DocKey,
        front: bool,
        value: Bytes,
    },
    /// The document of the key, to be given an expiry, and to be answered with where `fetch`.
    Touch {
        key: DocKey,
        expiry: u32,
        fetch: bool,
    },
    /// A part of the document of the key, to be looked at.
    Look {
        key: DocKey,
        spec: Spec,
    },
    /// A part of the document of the key, to be edited. The document keeps its expiry where none is given.
    Edit {
        key: DocKey,
        spec: Spec,
        /// As the client spelt it: 0 for none, seconds from now or since 1970.
        expiry: Option<u32>,
        /// As the client spelt them: see `MAKES_DOCUMENT` and `ADDS_DOCUMENT`.
        doc_flags: u8,
    },
    /// Parts of the document of the key, to be looked at.
    MultiLook {
        key: DocKey,
        /// 1 to 16.
        specs: Seq<Spec>,
    },
    /// Parts of the document of the key, to be edited one after the other, all of them or none. The document keeps its
    /// expiry where none is given.
    MultiEdit {
        key: DocKey,
        /// 1 to 16.
        specs: Seq<Spec>,
        /// As the client spelt it: 0 for none, seconds from now or since 1970.
        expiry: Option<u32>,
        /// As the client spelt them: see `MAKES_DOCUMENT` and `ADDS_DOCUMENT`.
        doc_flags: u8,
    },
    /// A manifest to take the place of the one that is there.
    SetManifest {
        text: Bytes,
    },
    /// The manifest that is there.
    GetManifest,
    /// The id of the collection of a path `scope.collection`.
    CollectionId {
        path: Bytes,
    },
    /// The id of the scope of a path `scope`.
    ScopeId {
        path: Bytes,
    },
}

/// A request. Its CAS is 0 where any document will do, else the one that the document is to have.
#[derive(Debug, PartialEq, Eq, Drop)]
pub struct Request {
    /// As the client spelt it; the reply repeats it.
    pub opcode: u8,
    /// The client's own number; the reply repeats it.
    pub opaque: u32,
    pub cas: u64,
    pub vbucket: u16,
    /// The level that the client waits for, where it asks for one.
    pub durability: Option<Durability>,
    pub body: Body,
}
