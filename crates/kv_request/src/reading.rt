ghost use Rattle.std.specs.Prelude.{◌≡◌, ◌+◌, ◌≤◌, true, None, length, option_map, IfOk};
ghost use Rattle.std.specs.Option.{option_copied};
ghost use Rattle.kv_frame.specs.Viewing.{frame_seen};
ghost use Rattle.kv_request.specs.Reading.{Reads};
ghost use Rattle.kv_request.specs.Tables.{has_form, is_cas_taken, word_at, long_at, level_extra};
ghost use Rattle.kv_request.specs.Tables.{level_count, is_level_form, has_timeout, has_level};
ghost use Rattle.kv_request.specs.Tables.{timeout_of, durability_of, is_even, has_one_path};
ghost use Rattle.kv_request.specs.Tables.{name_limit, key_from, value_limit, path_of, stored, counted};
ghost use Rattle.kv_request.specs.Tables.{joined, touched, pairs_of, body_checks, first_failing, body_with};
ghost use Rattle.kv_request.specs.Viewing.{key_seen, FindsKey, Checks};

use crate::multi::{multi_edit, multi_look};
use crate::opcode::{Command, FIRST_STREAM, LAST_STREAM};
use crate::parts::{check_body, edit, look};
use crate::request::{Body, Durability, Features, Mode, Request};
use doc_model::{DocKey, Refused, Status};
use kv_edge::{Bytes, NoMemory, Seq, u32_at, u64_at};
use kv_frame::{Frame, FrameExtra, FrameView, view_of};
use leb_collections::read_id;
use std::alloc::Global;

/// How many bytes the name of a document has at most in the collection that is there from the start.
pub const KEY_LIMIT: usize = doc_model::KEY_LIMIT;

/// How many bytes the name of a document has at most in any other collection.
pub const OTHER_KEY_LIMIT: usize = doc_model::OTHER_KEY_LIMIT;

/// How many bytes a value has at most.
pub const VALUE_LIMIT: usize = doc_model::VALUE_LIMIT;

/// How many bytes the text of a manifest has at most.
pub const MANIFEST_LIMIT: usize = doc_model::MANIFEST_LIMIT;

/// The id of the framing extra that asks for a level of durability.
pub const DURABILITY: u16 = 1;

/// The timeout of a durable write that names none, in milliseconds.
pub const USUAL_TIMEOUT: u16 = 30_000;

/// The datatype of JSON text, which is the greatest that a request may have. The one below it says nothing.
pub(crate) const JSON: u8 = 1;

/// The key of a document in the bytes of a frame: its collection's id and its name.
#[derive(Clone, Copy)]
struct KeyView<'a> {
    collection: u32,
    name: &'a [u8],
}

/// The request that a frame is, or the status of the first check that it fails.
pub fn read_request(alloc: Global, frame: &Frame, features: &Features) -> Result<Request, Refused>
    ensures { Reads frame.now features.now result }
{
    let view = view_of(alloc, frame)?;
    read_view(alloc, &view, features)
}

/// The request that a frame is of which this is a view, or the status of the first check that it fails. Key and value
/// are copied once.
pub fn read_view(
    alloc: Global,
    view: &FrameView<'_>,
    features: &Features,
) -> Result<Request, Refused>
    ensures { Reads (frame_seen view.now) features.now result }
{
    if FIRST_STREAM <= view.opcode && view.opcode <= LAST_STREAM {
        return Err(Refused::Status(Status::NOT_SUPPORTED));
    }
    let Some(command) = Command::of(view.opcode) else {
        return Err(Refused::Status(Status::UNKNOWN_COMMAND));
    };
    let key = match check(view, features, command) {
        Ok(key) => key,
        Err(status) => return Err(Refused::Status(status)),
    };
    let key = copy_key(alloc, key)?;
    let body = body(alloc, view, key, command)?;
    Ok(Request {
        opcode: view.opcode,
        opaque: view.opaque,
        cas: view.cas,
        vbucket: view.word,
        durability: durability(find_level(view)),
        body,
    })
}

/// The key of a frame with a known opcode, or the status of the first check that the frame fails.
fn check<'a>(
    view: &FrameView<'a>,
    features: &Features,
    command: Command,
) -> Result<KeyView<'a>, Status>
    ensures { Checks features.now (frame_seen view.now) command result }
{
    if view.datatype > JSON {
        return Err(Status::EINVAL);
    }
    let level = find_level(view);
    if count_levels(view) > 1 || !is_level_form(command, level) || !has_timeout(level) {
        return Err(Status::EINVAL);
    }
    if !has_level(level) {
        return Err(Status::DURABILITY_INVALID_LEVEL);
    }
    if !has_form(view, command) || !is_even(command, view.value.len()) {
        return Err(Status::EINVAL);
    }
    if !has_one_path(command, view.key.len(), view.value.len()) {
        return Err(Status::EINVAL);
    }
    let Some(key) = find_key(features, command, view.key) else {
        return Err(Status::EINVAL);
    };
    if view.value.len() > value_limit(command) {
        return Err(Status::E2BIG);
    }
    if !is_cas_taken(command, view.cas) {
        return Err(Status::EINVAL);
    }
    match check_body(view, command) {
        Some(status) => Err(status),
        None => Ok(key),
    }
}

/// The framing extra that asks for a level of durability, the first where there are several.
fn find_level<'a>(view: &'a FrameView<'_>) -> Option<&'a FrameExtra>
    ensures { option_copied result ≡ level_extra (frame_seen view.now) }
{
    view.framing
        .as_slice()
        .iter()
        .find(|extra| extra.id == DURABILITY)
}

/// How many framing extras ask for a level of durability.
fn count_levels(view: &FrameView<'_>) -> usize
    ensures { result ≡ level_count (frame_seen view.now) }
{
    view.framing
        .as_slice()
        .iter()
        .filter(|extra| extra.id == DURABILITY)
        .count()
}

/// Whether no level is asked for, or the command takes one and it stands alone or with a timeout.
fn is_level_form(command: Command, level: Option<&FrameExtra>) -> bool
    ensures { result ≡ is_level_form command (option_copied level.entry) }
{
    match level {
        None => true,
        Some(extra) => {
            let size = extra.body.len();
            command.takes_level() && (size == 1 || size == 3)
        }
    }
}

/// Whether the timeout isn't 0, where a level is asked for.
fn has_timeout(level: Option<&FrameExtra>) -> bool
    ensures { result ≡ has_timeout (option_copied level.entry) }
{
    match level {
        None => true,
        Some(extra) => timeout(extra.body.as_slice()) > 0,
    }
}

/// Whether the level is one from 1 to 3, where one is asked for.
fn has_level(level: Option<&FrameExtra>) -> bool
    ensures { result ≡ has_level (option_copied level.entry) }
{
    match level {
        None => true,
        Some(extra) => match extra.body.as_slice() {
            [first, ..] => 1 <= *first && *first <= 3,
            [] => false,
        },
    }
}

/// The timeout in milliseconds, which where it is left out is the usual one.
fn timeout(body: &[u8]) -> u16
    ensures { result ≡ timeout_of body.now }
{
    match body {
        [_, high, low] => u16::from_be_bytes([*high, *low]),
        _ => USUAL_TIMEOUT,
    }
}

/// The durability that is asked for.
fn durability(level: Option<&FrameExtra>) -> Option<Durability>
    ensures { result ≡ durability_of (option_copied level.entry) }
{
    let extra = level?;
    let body = extra.body.as_slice();
    let level = match body {
        [first, ..] => *first,
        [] => 0,
    };
    Some(Durability {
        level,
        timeout: timeout(body),
    })
}

/// Whether extras, key and value are there as the command asks.
fn has_form(view: &FrameView<'_>, command: Command) -> bool
    ensures { result ≡ has_form (frame_seen view.now) command }
{
    let extras = view.extras.len();
    let key = view.key.len();
    let value = view.value.len();
    match command {
        Command::Get | Command::GetKey | Command::Delete => extras == 0 && key > 0 && value == 0,
        Command::Set | Command::Add | Command::Replace => extras == 8 && key > 0,
        Command::Increment | Command::Decrement => extras == 20 && key > 0 && value == 0,
        Command::Append | Command::Prepend => extras == 0 && key > 0,
        Command::Touch | Command::GetAndTouch => extras == 4 && key > 0 && value == 0,
        Command::Quit | Command::Noop | Command::Version | Command::GetManifest => {
            extras == 0 && key == 0 && value == 0
        }
        Command::Hello | Command::CollectionId | Command::ScopeId => extras == 0,
        Command::SetManifest => extras == 0 && key == 0 && value > 0,
        Command::Look(_) => (extras == 3 || extras == 4) && key > 0,
        Command::Edit(_) => (extras == 3 || extras == 4 || extras == 7 || extras == 8) && key > 0,
        Command::MultiLook => (extras == 0 || extras == 1) && key > 0,
        Command::MultiEdit => {
            (extras == 0 || extras == 1 || extras == 4 || extras == 5) && key > 0
        }
    }
}

/// Whether a value of this many bytes is a list of numbers of two bytes each, where it has to be one.
fn is_even(command: Command, size: usize) -> bool
    ensures { result ≡ is_even command size }
{
    command != Command::Hello || size % 2 == 0
}

/// Whether the path of a collection or a scope is there just once, as key or as value of this many bytes.
fn has_one_path(command: Command, key: usize, value: usize) -> bool
    ensures { result ≡ has_one_path command key value }
{
    match command {
        Command::CollectionId | Command::ScopeId => (key == 0) != (value == 0),
        _ => true,
    }
}

/// How many bytes the name of a document has at most in a collection.
fn name_limit(collection: u32) -> usize
    ensures { result ≡ name_limit collection }
{
    if collection == 0 {
        KEY_LIMIT
    } else {
        OTHER_KEY_LIMIT
    }
}

/// The collection and the name that the bytes of a document's key spell, where they are within the limits.
fn split_key<'a>(features: &Features, bytes: &'a [u8]) -> Option<KeyView<'a>>
    ensures { option_map key_seen result ≡ key_from features.now.collections bytes.now }
{
    let (collection, name) = if features.collections {
        match read_id(bytes) {
            Ok((collection, used)) => (collection, bytes.split_at(used).1),
            Err(_) => return None,
        }
    } else {
        (0, bytes)
    };
    if name.is_empty() || name.len() > name_limit(collection) {
        return None;
    }
    Some(KeyView { collection, name })
}

/// The key where it is one that a document may have. A command that names no document gets one that is empty.
fn find_key<'a>(features: &Features, command: Command, bytes: &'a [u8]) -> Option<KeyView<'a>>
    ensures { FindsKey features.now command bytes.now result }
{
    if command.names_document() {
        split_key(features, bytes)
    } else {
        Some(KeyView {
            collection: 0,
            name: &[],
        })
    }
}

/// How many bytes a value has at most.
fn value_limit(command: Command) -> usize
    ensures { result ≡ value_limit command }
{
    if command == Command::SetManifest {
        MANIFEST_LIMIT
    } else {
        VALUE_LIMIT
    }
}

/// Whether the command takes this CAS: an Add, which finds no document, takes none but 0.
fn is_cas_taken(command: Command, cas: u64) -> bool
    ensures { result ≡ is_cas_taken command cas }
{
    command != Command::Add || cas == 0
}

/// A key with a copy of its name.
fn copy_key(alloc: Global, key: KeyView<'_>) -> Result<DocKey, NoMemory>
    ensures { IfOk result (λ made. made ≡ key_seen key.entry) }
{
    let name = Bytes::from_slice(alloc, key.name)?;
    Ok(DocKey {
        collection: key.collection,
        key: name,
    })
}

/// What the request of a frame with this key asks for, with a copy of the frame's value.
fn body(
    alloc: Global,
    view: &FrameView<'_>,
    key: DocKey,
    command: Command,
) -> Result<Body, NoMemory>
    requires form { has_form (frame_seen view.now) command ≡ true }
    requires passed { first_failing (body_checks (frame_seen view.now) command) ≡ None }
    ensures { IfOk result (λ made. made ≡ body_with key (frame_seen view.now) command) }
{
    match command {
        Command::Get | Command::GetKey => Ok(Body::Get { key }),
        Command::Set => store(alloc, view, key, Mode::Set),
        Command::Add => store(alloc, view, key, Mode::Add),
        Command::Replace => store(alloc, view, key, Mode::Replace),
        Command::Delete => Ok(Body::Delete { key }),
        Command::Increment => Ok(count(view, key, true)),
        Command::Decrement => Ok(count(view, key, false)),
        Command::Append => join(alloc, view, key, false),
        Command::Prepend => join(alloc, view, key, true),
        Command::Touch => Ok(touch(view, key, false)),
        Command::GetAndTouch => Ok(touch(view, key, true)),
        Command::Quit => Ok(Body::Quit),
        Command::Noop => Ok(Body::Noop),
        Command::Version => Ok(Body::Version),
        Command::Hello => Ok(Body::Hello {
            wanted: pairs(alloc, view.value)?,
        }),
        Command::SetManifest => Ok(Body::SetManifest {
            text: Bytes::from_slice(alloc, view.value)?,
        }),
        Command::GetManifest => Ok(Body::GetManifest),
        Command::CollectionId => Ok(Body::CollectionId {
            path: path_of(alloc, view)?,
        }),
        Command::ScopeId => Ok(Body::ScopeId {
            path: path_of(alloc, view)?,
        }),
        Command::Look(_) => look(alloc, view, key),
        Command::Edit(_) => edit(alloc, view, key),
        Command::MultiLook => multi_look(alloc, view, key),
        Command::MultiEdit => multi_edit(alloc, view, key),
    }
}

/// A document to store.
fn store(alloc: Global, view: &FrameView<'_>, key: DocKey, mode: Mode) -> Result<Body, NoMemory>
    requires { 8 ≤ length view.now.extras.now }
    ensures { IfOk result (λ made. made ≡ stored key (frame_seen view.now) mode) }
{
    Ok(Body::Store {
        key,
        mode,
        flags: word_at(0, view.extras),
        expiry: word_at(4, view.extras),
        value: Bytes::from_slice(alloc, view.value)?,
    })
}

/// A number to count.
fn count(view: &FrameView<'_>, key: DocKey, up: bool) -> Body
    requires { 20 ≤ length view.now.extras.now }
    ensures { result ≡ counted key (frame_seen view.now) up }
{
    Body::Count {
        key,
        up,
        delta: long_at(0, view.extras),
        initial: long_at(8, view.extras),
        expiry: word_at(16, view.extras),
    }
}

/// Bytes to add to a value.
fn join(alloc: Global, view: &FrameView<'_>, key: DocKey, front: bool) -> Result<Body, NoMemory>
    ensures { IfOk result (λ made. made ≡ joined key (frame_seen view.now) front) }
{
    Ok(Body::Join {
        key,
        front,
        value: Bytes::from_slice(alloc, view.value)?,
    })
}

/// A document to give an expiry.
fn touch(view: &FrameView<'_>, key: DocKey, fetch: bool) -> Body
    requires { 4 ≤ length view.now.extras.now }
    ensures { result ≡ touched key (frame_seen view.now) fetch }
{
    Body::Touch {
        key,
        expiry: word_at(0, view.extras),
        fetch,
    }
}

/// The numbers of two bytes each that the bytes are.
fn pairs(alloc: Global, bytes: &[u8]) -> Result<Seq<u16>, NoMemory>
    ensures { IfOk result (λ made. made ≡ pairs_of bytes.now) }
{
    let mut numbers = Vec::new(alloc);
    let mut rest = bytes;
    while let [high, low, others @ ..] = rest {
        numbers.push(u16::from_be_bytes([*high, *low]))?;
        rest = others;
    }
    Ok(Seq::from_vec(numbers))
}

/// The path of a collection or a scope, which is the key or the value.
fn path_of(alloc: Global, view: &FrameView<'_>) -> Result<Bytes, NoMemory>
    ensures { IfOk result (λ path. path ≡ path_of (frame_seen view.now)) }
{
    if view.key.is_empty() {
        Bytes::from_slice(alloc, view.value)
    } else {
        Bytes::from_slice(alloc, view.key)
    }
}

/// The number that four bytes of the extras are.
pub(crate) fn word_at(offset: usize, extras: &[u8]) -> u32
    requires { offset + 4 ≤ length extras.now }
    ensures { result ≡ word_at offset extras.now }
{
    let (_, rest) = extras.split_at(offset);
    match u32_at(rest) {
        Some((word, _)) => word,
        None => unreachable!("the extras are long enough"),
    }
}

/// The number that eight bytes of the extras are.
fn long_at(offset: usize, extras: &[u8]) -> u64
    requires { offset + 8 ≤ length extras.now }
    ensures { result ≡ long_at offset extras.now }
{
    let (_, rest) = extras.split_at(offset);
    match u64_at(rest) {
        Some((word, _)) => word,
        None => unreachable!("the extras are long enough"),
    }
}
