//! What a session answers by itself.

ghost use Rattle.std.specs.Prelude.{◌≡◌, IfOk};
ghost use Rattle.std.specs.List.{flat_map, list_any};
ghost use Rattle.std.specs.Int.{w16, to_be_bytes};
ghost use Rattle.kv_session.specs.Answers.{is_granted, granted, features_of, telling, made_of, made_by};
ghost use Rattle.kv_session.specs.Making.{Makes, Spells, made_with};
ghost use Rattle.kv_frame.specs.Grammar.{Fits};
ghost use Rattle.kv_frame.specs.Viewing.{frame_seen};

use doc_model::{Refused, Status};
use kv_edge::{Bytes, NoMemory};
use kv_frame::FrameView;
use kv_request::{Body, Features, Reply, Request, read_view, refusal};
use std::alloc::Global;

/// Mutation tokens: replies to writes tell term and sequence number.
pub const FEATURE_TOKEN: u16 = 0x0004;

/// Extended attributes. It changes nothing.
pub const FEATURE_XATTR: u16 = 0x0006;

/// Extended errors. It changes nothing.
pub const FEATURE_XERROR: u16 = 0x0007;

/// JSON: replies tell by their datatype whether the document that they carry is JSON text.
pub const FEATURE_JSON: u16 = 0x000b;

/// Flexible framing (alternative requests), which is taken with and without it. It changes nothing.
pub const FEATURE_FLEX: u16 = 0x0010;

/// Durable writes (synchronous replication), which are taken with and without it. It changes nothing.
pub const FEATURE_DURABILITY: u16 = 0x0011;

/// Collections: keys begin with the id of their collection.
pub const FEATURE_COLLECTIONS: u16 = 0x0012;

/// The version that is told.
pub const VERSION_TEXT: &str = "1.0.0";

/// What a session makes of a frame.
#[derive(Debug, Drop)]
pub(crate) enum Made {
    /// A request to pass on.
    Passed(Request),
    /// A reply of the session's own, the features from then on, and whether the connection ends.
    Told {
        reply: Reply,
        features: Features,
        quit: bool,
    },
}

/// A session's own answer to a request: the reply, the features from then on, and whether the
/// connection ends.
#[derive(Drop)]
struct Own {
    reply: Reply,
    features: Features,
    quit: bool,
}

/// What a session makes of the frame that a view is of, under the features granted so far: a request to pass on, or a
/// reply of the session's own.
pub(crate) fn read_frame(
    alloc: Global,
    view: &FrameView<'_>,
    features: &Features,
) -> Result<Made, NoMemory>
    requires { Fits (frame_seen view.now) }
    ensures made { IfOk result (Makes (made_by features.now (frame_seen view.now))) }
    ensures spells { IfOk result Spells }
{
    match read_view(alloc, view, features) {
        Ok(request) => pass_or_tell(alloc, request, *features),
        Err(Refused::NoMemory) => Err(NoMemory),
        Err(Refused::Status(status)) => Ok(Made::Told {
            reply: refusal(alloc, view.opcode, view.opaque, status),
            features: *features,
            quit: false,
        }),
    }
}

/// What a session makes of a request: one that asks nothing of a vbucket is answered, any other is
/// passed on.
fn pass_or_tell(alloc: Global, request: Request, features: Features) -> Result<Made, NoMemory>
    ensures { IfOk result (Makes (made_of features request request.body)) }
{
    let own = tell_own(alloc, &request, features)?;
    match own {
        Some(own) => Ok(Made::Told {
            reply: own.reply,
            features: own.features,
            quit: own.quit,
        }),
        None => Ok(Made::Passed(request)),
    }
}

/// What a session answers to a request by itself, or nothing where it asks something of a vbucket.
fn tell_own(alloc: Global, request: &Request, features: Features) -> Result<Option<Own>, NoMemory>
    ensures { IfOk result
        (λ own. made_with request.now own ≡ made_of features request.now request.now.body) }
{
    match &request.body {
        Body::Hello { wanted } => {
            let codes = grant(alloc, wanted.as_slice())?;
            let value = spell(alloc, &codes)?;
            Ok(Some(Own {
                reply: tell(alloc, request, value),
                features: take(&codes),
                quit: false,
            }))
        }
        Body::Noop => Ok(Some(Own {
            reply: tell(alloc, request, Bytes::new(alloc)),
            features,
            quit: false,
        })),
        Body::Version => {
            let value = Bytes::from_slice(alloc, VERSION_TEXT.as_bytes())?;
            Ok(Some(Own {
                reply: tell(alloc, request, value),
                features,
                quit: false,
            }))
        }
        Body::Quit => Ok(Some(Own {
            reply: tell(alloc, request, Bytes::new(alloc)),
            features,
            quit: true,
        })),
        _ => Ok(None),
    }
}

/// Whether a feature is granted where it is asked for.
fn is_granted(code: u16) -> bool
    ensures { result ≡ is_granted code }
{
    matches!(
        code,
        FEATURE_TOKEN
            | FEATURE_XATTR
            | FEATURE_XERROR
            | FEATURE_JSON
            | FEATURE_FLEX
            | FEATURE_DURABILITY
            | FEATURE_COLLECTIONS
    )
}

/// The features that are granted of those asked for, each once.
fn grant(alloc: Global, wanted: &[u16]) -> Result<Vec<u16>, NoMemory>
    ensures { IfOk result (λ codes. codes.items ≡ granted wanted.now) }
{
    let mut codes = Vec::new(alloc);
    for code in wanted {
        if is_granted(*code) && !codes.contains(code) {
            codes.push(*code)?;
        }
    }
    Ok(codes)
}

/// Two bytes for each feature.
fn spell(alloc: Global, codes: &[u16]) -> Result<Bytes, NoMemory>
    ensures { IfOk result (λ bytes. bytes ≡ flat_map (to_be_bytes w16) codes.now) }
{
    let mut bytes = Vec::new(alloc);
    for code in codes {
        bytes.extend_from_slice(&code.to_be_bytes())?;
    }
    Ok(Bytes::from_vec(bytes))
}

/// What these features change.
fn take(codes: &[u16]) -> Features
    ensures { result ≡ features_of codes.now }
{
    Features {
        token: codes.contains(&FEATURE_TOKEN),
        json: codes.contains(&FEATURE_JSON),
        collections: codes.contains(&FEATURE_COLLECTIONS),
    }
}

/// A reply with this value.
fn tell(alloc: Global, request: &Request, value: Bytes) -> Reply
    ensures { result ≡ telling request.now value }
{
    Reply {
        opcode: request.opcode,
        opaque: request.opaque,
        status: Status::SUCCESS,
        cas: 0,
        json: false,
        flags: None,
        token: None,
        extras: Bytes::new(alloc),
        key: None,
        value,
    }
}
