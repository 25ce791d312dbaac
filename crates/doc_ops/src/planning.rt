//! What each operation does to the document that is there.

ghost use Rattle.std.specs.Prelude.{◌≡◌, ◌≤◌, ◌+◌, length, true, not, nat_lt, None, Some, IfOk};
ghost use Rattle.std.specs.Option.{option_copied};
ghost use Rattle.kv_request.specs.declared.multi.TheConstants.{MOST_SPECS};
ghost use Rattle.kv_request.specs.Tables.{specs_brought};
ghost use Rattle.doc_step.specs.Step.{cas_refusal, get_step, stored_doc, store_step, delete_step};
ghost use Rattle.doc_step.specs.Step.{count_step, join_step, touched_reply, touch_step, operation};
ghost use Rattle.doc_step.specs.Step.{document_step, Plans};
ghost use Rattle.doc_ops.specs.Planning.{setting_of, mode_refusal};

use crate::counter::{decimal, moved, number_of};
use crate::documents::{joined_value, new_counter, stored_doc, touched_doc, with_value};
use crate::edits::{edit_at, edit_each};
use crate::expiry::{Setting, there};
use crate::looks::{look_at, look_at_each};
use crate::replies::{carrying, changing, storing};
use doc_model::{Doc, DocKey, Refused, Status};
use doc_step::{Change, Effect, NO_INITIAL};
use kv_edge::{Bytes, NoMemory};
use kv_request::{Body, Mode, Reply, Request, VALUE_LIMIT};
use std::alloc::Global;

/// What a request does to the document of its key, where this is the document that the map has, and
/// what it answers.
///
/// `max_ttl` is the greatest lifetime that the collection grants, in seconds, and 0 for any. `now`
/// is in milliseconds since 1970. A change draws the CAS `draw`, and a document that is to be
/// stored has the sequence number 0. Request and document stay as they are: a reply has a copy of
/// the value that it carries, and a document that is to be stored has its own value and attributes.
///
/// A refusal has no effect. It is `NoMemory` where memory was refused, and else a status:
/// - at a CAS other than 0: KeyEnoent where no document is there, KeyEexists where it has another;
/// - Add: KeyEexists where one is there; Get, Replace, Delete and Touch: KeyEnoent where none is;
/// - Append and Prepend: NotStored where none is there, E2big where the value would pass its limit;
/// - Increment and Decrement: KeyEnoent where none is there and the expiry is ffffffff, DeltaBadval
///   where the value is no number below 2^64 in 1 to 20 digits;
/// - a look-up of a part: KeyEnoent where no document is there, else what `subdoc_edit::look` refuses;
/// - an edit of a part: KeyEnoent where none is there and none is to be made, KeyEexists where one is
///   there and none may be, else what `subdoc_edit::edit` refuses;
/// - what asks nothing of documents: UnknownCommand.
pub fn plan(
    alloc: Global,
    request: &Request,
    doc: Option<&Doc>,
    max_ttl: u32,
    now: u64,
    draw: u64,
) -> Result<Change, Refused>
    requires { length (specs_brought request.now.body) ≤ MOST_SPECS }
    ensures { Plans (document_step (record
        { max_ttl = max_ttl; now = now; draw = draw }) request.now
        (option_copied doc.entry)) result }
{
    let doc = there(now, doc);
    if let Some(status) = cas_refusal(request.cas, doc) {
        return Err(Refused::Status(status));
    }
    let setting = Setting { max_ttl, now, draw };
    plan_operation(alloc, setting, request, doc)
}

/// Why a request with this CAS is refused, where it is.
fn cas_refusal(cas: u64, doc: Option<&Doc>) -> Option<Status>
    ensures { result ≡ cas_refusal cas (option_copied doc.entry) }
{
    if cas == 0 {
        return None;
    }
    match doc {
        None => Some(Status::KEY_ENOENT),
        Some(doc) if doc.cas == cas => None,
        Some(_) => Some(Status::KEY_EEXISTS),
    }
}

/// What the operation does where the CAS allows it.
fn plan_operation(
    alloc: Global,
    setting: Setting,
    request: &Request,
    doc: Option<&Doc>,
) -> Result<Change, Refused>
    requires { length (specs_brought request.now.body) ≤ MOST_SPECS }
    ensures { Plans (operation (setting_of setting) request.now request.now.body
        (option_copied doc.entry)) result }
{
    match &request.body {
        Body::Hello { .. }
        | Body::Noop
        | Body::Version
        | Body::Quit
        | Body::SetManifest { .. }
        | Body::GetManifest
        | Body::CollectionId { .. }
        | Body::ScopeId { .. } => Err(Refused::Status(Status::UNKNOWN_COMMAND)),
        Body::Get { key } => get(alloc, request, key, doc),
        Body::Store {
            mode,
            flags,
            expiry,
            value,
            ..
        } => store(alloc, setting, request, *mode, *flags, *expiry, value, doc),
        Body::Delete { .. } => delete(alloc, setting, request, doc),
        Body::Count {
            up,
            delta,
            initial,
            expiry,
            ..
        } => count(alloc, setting, request, *up, *delta, *initial, *expiry, doc),
        Body::Join { front, value, .. } => join(alloc, setting, request, *front, value, doc),
        Body::Touch { key, expiry, fetch } => {
            touch(alloc, setting, request, key, *expiry, *fetch, doc)
        }
        Body::Look { spec, .. } => look_at(alloc, request, spec, doc),
        Body::Edit {
            spec,
            expiry,
            doc_flags,
            ..
        } => edit_at(alloc, setting, request, spec, *expiry, *doc_flags, doc),
        Body::MultiLook { specs, .. } => look_at_each(alloc, request, specs.as_slice(), doc),
        Body::MultiEdit {
            specs,
            expiry,
            doc_flags,
            ..
        } => {
            let specs = specs.as_slice();
            edit_each(alloc, setting, request, specs, *expiry, *doc_flags, doc)
        }
    }
}

/// The document, which stays.
fn get(alloc: Global, request: &Request, key: &DocKey, doc: Option<&Doc>) -> Result<Change, Refused>
    ensures { Plans (get_step request.now key.now (option_copied doc.entry)) result }
{
    match doc {
        None => Err(Refused::Status(Status::KEY_ENOENT)),
        Some(doc) => Ok(Change {
            effect: Effect::Nothing,
            reply: carrying(alloc, request, key, doc)?,
        }),
    }
}

/// A document that takes the place of what is there, where the mode allows it.
fn store(
    alloc: Global,
    setting: Setting,
    request: &Request,
    mode: Mode,
    flags: u32,
    expiry: u32,
    value: &Bytes,
    doc: Option<&Doc>,
) -> Result<Change, Refused>
    ensures { Plans (store_step (setting_of setting) request.now mode (option_copied doc.entry)
        (stored_doc (setting_of setting) flags expiry value.now (option_copied doc.entry))) result }
{
    if let Some(status) = mode_refusal(mode, doc) {
        return Err(Refused::Status(status));
    }
    let stored = stored_doc(alloc, setting, flags, expiry, value, doc)?;
    Ok(storing(alloc, request, stored, Bytes::new(alloc)))
}

/// Why a store of this mode is refused, where it is.
fn mode_refusal(mode: Mode, doc: Option<&Doc>) -> Option<Status>
    ensures { result ≡ mode_refusal mode (option_copied doc.entry) }
{
    match (mode, doc) {
        (Mode::Add, Some(_)) => Some(Status::KEY_EEXISTS),
        (Mode::Replace, None) => Some(Status::KEY_ENOENT),
        _ => None,
    }
}

/// A deletion, with the attributes.
fn delete(
    alloc: Global,
    setting: Setting,
    request: &Request,
    doc: Option<&Doc>,
) -> Result<Change, Refused>
    ensures { Plans (delete_step (setting_of setting) request.now (option_copied doc.entry)) result }
{
    match doc {
        None => Err(Refused::Status(Status::KEY_ENOENT)),
        Some(_) => Ok(Change {
            effect: Effect::Remove,
            reply: changing(alloc, request, setting.draw, Bytes::new(alloc)),
        }),
    }
}

/// A number counted up or down, or begun where none is there.
fn count(
    alloc: Global,
    setting: Setting,
    request: &Request,
    up: bool,
    delta: u64,
    initial: u64,
    expiry: u32,
    doc: Option<&Doc>,
) -> Result<Change, Refused>
    ensures { Plans (count_step (setting_of setting) request.now up delta initial expiry
        (option_copied doc.entry)) result }
{
    match doc {
        None => begin_count(alloc, setting, request, initial, expiry),
        Some(doc) => go_on_counting(alloc, setting, request, up, delta, doc),
    }
}

/// A counter's first number, where none is there and the expiry doesn't say to leave it so. Which
/// way it counts, and how far, is then of no account.
fn begin_count(
    alloc: Global,
    setting: Setting,
    request: &Request,
    initial: u64,
    expiry: u32,
) -> Result<Change, Refused>
    ensures { Plans (count_step (setting_of setting) request.now true 0 initial expiry None) result }
{
    if expiry == NO_INITIAL {
        return Err(Refused::Status(Status::KEY_ENOENT));
    }
    let counter = new_counter(alloc, setting, initial, expiry)?;
    let reply_value = Bytes::from_slice(alloc, &initial.to_be_bytes())?;
    Ok(storing(alloc, request, counter, reply_value))
}

/// The number of a document that is there, counted up or down. The initial value and its expiry are
/// then of no account.
fn go_on_counting(
    alloc: Global,
    setting: Setting,
    request: &Request,
    up: bool,
    delta: u64,
    doc: &Doc,
) -> Result<Change, Refused>
    ensures { Plans (count_step (setting_of setting) request.now up delta 0 0 (Some doc.now)) result }
{
    let Some(number) = number_of(doc.value.as_slice()) else {
        return Err(Refused::Status(Status::DELTA_BADVAL));
    };
    let moved = moved(up, number, delta);
    let counted = with_value(alloc, setting, doc, decimal(alloc, moved)?)?;
    let reply_value = Bytes::from_slice(alloc, &moved.to_be_bytes())?;
    Ok(storing(alloc, request, counted, reply_value))
}

/// The value of a document that is there with bytes before it or behind it.
fn join(
    alloc: Global,
    setting: Setting,
    request: &Request,
    front: bool,
    value: &Bytes,
    doc: Option<&Doc>,
) -> Result<Change, Refused>
    ensures { Plans (join_step (setting_of setting) request.now front value.now
        (option_copied doc.entry)) result }
{
    let Some(doc) = doc else {
        return Err(Refused::Status(Status::NOT_STORED));
    };
    if !is_joinable(doc.value.len(), value.len()) {
        return Err(Refused::Status(Status::E2BIG));
    }
    let value = joined_value(alloc, front, doc.value.as_slice(), value.as_slice())?;
    let joined = with_value(alloc, setting, doc, value)?;
    Ok(storing(alloc, request, joined, Bytes::new(alloc)))
}

/// Whether two values of these lengths make one within the limit.
fn is_joinable(old: usize, more: usize) -> bool
    ensures { result ≡ not (nat_lt VALUE_LIMIT (old + more)) }
{
    old <= VALUE_LIMIT && more <= VALUE_LIMIT - old
}

/// Another expiry for a document that is there, and the document itself where it is asked for.
fn touch(
    alloc: Global,
    setting: Setting,
    request: &Request,
    key: &DocKey,
    expiry: u32,
    fetch: bool,
    doc: Option<&Doc>,
) -> Result<Change, Refused>
    ensures { Plans (touch_step (setting_of setting) request.now key.now expiry fetch
        (option_copied doc.entry)) result }
{
    let Some(doc) = doc else {
        return Err(Refused::Status(Status::KEY_ENOENT));
    };
    let touched = touched_doc(alloc, setting, doc, expiry)?;
    let reply = touched_reply(alloc, fetch, request, key, &touched)?;
    Ok(Change {
        effect: Effect::Put(touched),
        reply,
    })
}

/// The reply to a Touch, which carries the document where it is asked for.
fn touched_reply(
    alloc: Global,
    fetch: bool,
    request: &Request,
    key: &DocKey,
    doc: &Doc,
) -> Result<Reply, NoMemory>
    ensures { IfOk result (λ reply. reply ≡ touched_reply fetch request.now key.now doc.now) }
{
    if fetch {
        carrying(alloc, request, key, doc)
    } else {
        Ok(changing(alloc, request, doc.cas, Bytes::new(alloc)))
    }
}
