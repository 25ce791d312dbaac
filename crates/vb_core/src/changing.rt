//! What a request on a document names, and what a change draws.

ghost use Rattle.std.specs.Prelude.{◌≡◌, ◌+◌, ◌*◌, ◌^◌, ◌≤◌, max, IfOk};
ghost use Rattle.std.specs.Option.{option_copied};
ghost use Rattle.kv_request.specs.Tables.{key_named};
ghost use Rattle.doc_step.specs.Step.{tells_token};
ghost use Rattle.doc_step.specs.Laws.{HasSmallInitial};
ghost use Rattle.copy_model.specs.declared.limits.TheConstants.{LAST_MOMENT};

use copy_model::LAST_MOMENT;
use doc_model::DocKey;
use kv_edge::NoMemory;
use kv_request::Body;

/// The CAS that a change draws, unless it passes 64 bits.
pub(crate) fn draw(greatest_cas: u64, seen: u64) -> Result<u64, NoMemory>
    requires { seen ≤ LAST_MOMENT }
    ensures { IfOk result (λ cas. cas ≡ max (greatest_cas + 1) (seen * 2 ^ 20)) }
{
    match greatest_cas.checked_add(1) {
        Some(next) => Ok(next.max(seen * (1 << 20))),
        None => Err(NoMemory),
    }
}

/// The key that a request names, where it is a document's. An initial value that comes with it is read, so that its
/// range is known.
pub(crate) fn name_of(body: &Body) -> Option<&DocKey>
    ensures key { option_copied result ≡ key_named body.now }
    ensures initial { HasSmallInitial body.now }
{
    match body {
        Body::Hello { .. } | Body::Noop | Body::Version | Body::Quit => None,
        Body::SetManifest { .. } | Body::GetManifest => None,
        Body::CollectionId { .. } | Body::ScopeId { .. } => None,
        Body::Get { key } => Some(key),
        Body::Store { key, .. } => Some(key),
        Body::Delete { key } => Some(key),
        Body::Count { key, initial, .. } => {
            let _initial = *initial;
            Some(key)
        }
        Body::Join { key, .. } => Some(key),
        Body::Touch { key, .. } => Some(key),
        Body::Look { key, .. } | Body::Edit { key, .. } => Some(key),
        Body::MultiLook { key, .. } | Body::MultiEdit { key, .. } => Some(key),
    }
}

/// Whether the reply to a change tells term and position.
pub(crate) fn tells_token(body: &Body) -> bool
    ensures { result ≡ tells_token body.now }
{
    !matches!(body, Body::Touch { .. })
}
