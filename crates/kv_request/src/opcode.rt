ghost use Rattle.std.specs.Prelude.{◌≡◌};
ghost use Rattle.kv_request.specs.Opcodes.{is_quiet, is_unsent, part_command};

use doc_model::Status;
use json_model::{Edit, Lookup};

/// Get: what a key has.
pub const GET: u8 = 0x00;

/// Set: stores a document, whatever is there.
pub const SET: u8 = 0x01;

/// Add: stores a document where none is.
pub const ADD: u8 = 0x02;

/// Replace: stores a document where one is.
pub const REPLACE: u8 = 0x03;

/// Delete: deletes a document.
pub const DELETE: u8 = 0x04;

/// Increment: counts a number up.
pub const INCREMENT: u8 = 0x05;

/// Decrement: counts a number down.
pub const DECREMENT: u8 = 0x06;

/// Quit: ends the connection.
pub const QUIT: u8 = 0x07;

/// A Get that says nothing of a miss.
pub const GETQ: u8 = 0x09;

/// Noop: a reply and nothing else.
pub const NOOP: u8 = 0x0a;

/// Version: the version that is served.
pub const VERSION: u8 = 0x0b;

/// A Get whose reply has the key.
pub const GETK: u8 = 0x0c;

/// A Get whose reply has the key, and that says nothing of a miss.
pub const GETKQ: u8 = 0x0d;

/// Append: adds bytes behind a value.
pub const APPEND: u8 = 0x0e;

/// Prepend: adds bytes before a value.
pub const PREPEND: u8 = 0x0f;

/// A Set that says nothing of success.
pub const SETQ: u8 = 0x11;

/// An Add that says nothing of success.
pub const ADDQ: u8 = 0x12;

/// A Replace that says nothing of success.
pub const REPLACEQ: u8 = 0x13;

/// A Delete that says nothing of success.
pub const DELETEQ: u8 = 0x14;

/// An Increment that says nothing of success.
pub const INCREMENTQ: u8 = 0x15;

/// A Decrement that says nothing of success.
pub const DECREMENTQ: u8 = 0x16;

/// A Quit without a reply.
pub const QUITQ: u8 = 0x17;

/// An Append that says nothing of success.
pub const APPENDQ: u8 = 0x19;

/// A Prepend that says nothing of success.
pub const PREPENDQ: u8 = 0x1a;

/// Touch: gives a document another expiry.
pub const TOUCH: u8 = 0x1c;

/// Get and touch: gives a document another expiry, and answers as a Get.
pub const GAT: u8 = 0x1d;

/// Hello: asks for features.
pub const HELLO: u8 = 0x1f;

/// Set manifest: which scopes and collections there are.
pub const SET_MANIFEST: u8 = 0xb9;

/// Get manifest: the text of the manifest that is there.
pub const GET_MANIFEST: u8 = 0xba;

/// Get collection id: the id of a scope's collection.
pub const COLLECTION_ID: u8 = 0xbb;

/// Get scope id: the id of a scope.
pub const SCOPE_ID: u8 = 0xbc;

/// The text at a path.
pub const LOOK_GET: u8 = 0xc5;

/// Whether a path leads to a value.
pub const LOOK_EXISTS: u8 = 0xc6;

/// How many members or elements there are at a path.
pub const LOOK_GET_COUNT: u8 = 0xd2;

/// Inserts a member where there is none of its name.
pub const EDIT_DICT_ADD: u8 = 0xc7;

/// Replaces a member's value, or inserts a member.
pub const EDIT_DICT_UPSERT: u8 = 0xc8;

/// Removes a member or an element.
pub const EDIT_DELETE: u8 = 0xc9;

/// Replaces a value.
pub const EDIT_REPLACE: u8 = 0xca;

/// Puts elements behind the last one.
pub const EDIT_ARRAY_PUSH_LAST: u8 = 0xcb;

/// Puts elements before the first one.
pub const EDIT_ARRAY_PUSH_FIRST: u8 = 0xcc;

/// Puts elements before the one that the path names.
pub const EDIT_ARRAY_INSERT: u8 = 0xcd;

/// Puts an element behind the last one, where none has its text.
pub const EDIT_ARRAY_ADD_UNIQUE: u8 = 0xce;

/// Counts a whole number up or down.
pub const EDIT_COUNTER: u8 = 0xcf;

/// Look-ups at several paths.
pub const MULTI_LOOK: u8 = 0xd0;

/// Edits at several paths, all or none.
pub const MULTI_EDIT: u8 = 0xd1;

/// The first and the last opcode of streams between nodes.
pub const FIRST_STREAM: u8 = 0x50;

pub const LAST_STREAM: u8 = 0x6f;

/// What a request asks for, whether it is quiet or not.
#[derive(Clone, Copy, Debug, PartialEq, Eq)]
pub enum Command {
    Get,
    /// A Get whose reply has the key.
    GetKey,
    Set,
    Add,
    Replace,
    Delete,
    Increment,
    Decrement,
    Append,
    Prepend,
    Touch,
    GetAndTouch,
    Quit,
    Noop,
    Version,
    Hello,
    SetManifest,
    GetManifest,
    CollectionId,
    ScopeId,
    /// A look at a part of a document.
    Look(Lookup),
    /// An edit of a part of a document.
    Edit(Edit),
    /// A look at several parts of a document.
    MultiLook,
    /// An edit of several parts of a document.
    MultiEdit,
}

impl Command {
    ghost use Rattle.kv_request.specs.Opcodes.{command_of, names_document, takes_level, tells_key, unsent_status};
    ghost use Rattle.kv_request.specs.Opcodes.{takes_value, may_make_parents, takes_whole};

    /// The command of an opcode that is served.
    pub fn of(opcode: u8) -> Option<Command>
        ensures { result ≡ command_of opcode }
    {
        match opcode {
            GET | GETQ => Some(Command::Get),
            GETK | GETKQ => Some(Command::GetKey),
            SET | SETQ => Some(Command::Set),
            ADD | ADDQ => Some(Command::Add),
            REPLACE | REPLACEQ => Some(Command::Replace),
            DELETE | DELETEQ => Some(Command::Delete),
            INCREMENT | INCREMENTQ => Some(Command::Increment),
            DECREMENT | DECREMENTQ => Some(Command::Decrement),
            APPEND | APPENDQ => Some(Command::Append),
            PREPEND | PREPENDQ => Some(Command::Prepend),
            TOUCH => Some(Command::Touch),
            GAT => Some(Command::GetAndTouch),
            QUIT | QUITQ => Some(Command::Quit),
            NOOP => Some(Command::Noop),
            VERSION => Some(Command::Version),
            HELLO => Some(Command::Hello),
            SET_MANIFEST => Some(Command::SetManifest),
            GET_MANIFEST => Some(Command::GetManifest),
            COLLECTION_ID => Some(Command::CollectionId),
            SCOPE_ID => Some(Command::ScopeId),
            MULTI_LOOK => Some(Command::MultiLook),
            MULTI_EDIT => Some(Command::MultiEdit),
            _ => part_command(opcode),
        }
    }

    /// Whether the key of a request is a document's.
    pub fn names_document(self) -> bool
        ensures { result ≡ names_document self }
    {
        !matches!(
            self,
            Command::Quit
                | Command::Noop
                | Command::Version
                | Command::Hello
                | Command::SetManifest
                | Command::GetManifest
                | Command::CollectionId
                | Command::ScopeId
        )
    }

    /// Whether the reply tells the key.
    pub fn tells_key(self) -> bool
        ensures { result ≡ tells_key self }
    {
        self == Command::GetKey
    }

    /// Whether a request may ask for a level of durability.
    pub fn takes_level(self) -> bool
        ensures { result ≡ takes_level self }
    {
        matches!(
            self,
            Command::Set
                | Command::Add
                | Command::Replace
                | Command::Delete
                | Command::Increment
                | Command::Decrement
                | Command::Append
                | Command::Prepend
                | Command::Edit(_)
                | Command::MultiEdit
        )
    }

    /// Whether a value may come behind the path, where the command is on a part of a document.
    pub fn takes_value(self) -> bool
        ensures { result ≡ takes_value self }
    {
        !matches!(self, Command::Look(_) | Command::Edit(Edit::Delete))
    }

    /// Whether the command makes several parts of a path that are absent, where it is asked to.
    pub fn may_make_parents(self) -> bool
        ensures { result ≡ may_make_parents self }
    {
        matches!(
            self,
            Command::Edit(Edit::DictAdd)
                | Command::Edit(Edit::DictUpsert)
                | Command::Edit(Edit::ArrayPushLast)
                | Command::Edit(Edit::ArrayPushFirst)
                | Command::Edit(Edit::ArrayAddUnique)
                | Command::Edit(Edit::Counter)
        )
    }

    /// Whether the command takes the whole document, by the path of no bytes.
    pub fn takes_whole(self) -> bool
        ensures { result ≡ takes_whole self }
    {
        matches!(
            self,
            Command::Look(Lookup::GetCount)
                | Command::Edit(Edit::ArrayPushLast)
                | Command::Edit(Edit::ArrayPushFirst)
                | Command::Edit(Edit::ArrayAddUnique)
        )
    }

    /// The status that a quiet opcode leaves unsent.
    pub fn unsent_status(self) -> Status
        ensures { result ≡ unsent_status self }
    {
        match self {
            Command::Get | Command::GetKey => Status::KEY_ENOENT,
            _ => Status::SUCCESS,
        }
    }
}

/// What an opcode asks of a part of a document.
pub(crate) fn part_command(opcode: u8) -> Option<Command>
    ensures { result ≡ part_command opcode }
{
    match opcode {
        LOOK_GET => Some(Command::Look(Lookup::Get)),
        LOOK_EXISTS => Some(Command::Look(Lookup::Exists)),
        LOOK_GET_COUNT => Some(Command::Look(Lookup::GetCount)),
        EDIT_DICT_ADD => Some(Command::Edit(Edit::DictAdd)),
        EDIT_DICT_UPSERT => Some(Command::Edit(Edit::DictUpsert)),
        EDIT_DELETE => Some(Command::Edit(Edit::Delete)),
        EDIT_REPLACE => Some(Command::Edit(Edit::Replace)),
        EDIT_ARRAY_PUSH_LAST => Some(Command::Edit(Edit::ArrayPushLast)),
        EDIT_ARRAY_PUSH_FIRST => Some(Command::Edit(Edit::ArrayPushFirst)),
        EDIT_ARRAY_INSERT => Some(Command::Edit(Edit::ArrayInsert)),
        EDIT_ARRAY_ADD_UNIQUE => Some(Command::Edit(Edit::ArrayAddUnique)),
        EDIT_COUNTER => Some(Command::Edit(Edit::Counter)),
        _ => None,
    }
}

/// Whether an opcode is quiet.
pub fn is_quiet(opcode: u8) -> bool
    ensures { result ≡ is_quiet opcode }
{
    matches!(
        opcode,
        GETQ | GETKQ
            | SETQ
            | ADDQ
            | REPLACEQ
            | DELETEQ
            | INCREMENTQ
            | DECREMENTQ
            | QUITQ
            | APPENDQ
            | PREPENDQ
    )
}

/// Whether a reply of this opcode with this status is left unsent.
pub fn is_unsent(opcode: u8, status: Status) -> bool
    ensures { result ≡ is_unsent opcode status }
{
    match Command::of(opcode) {
        Some(command) => is_quiet(opcode) && status == command.unsent_status(),
        None => false,
    }
}
