//! When a document is there, and the expiry that a request gives.

ghost use Rattle.std.specs.Prelude.{◌≡◌};
ghost use Rattle.std.specs.Option.{option_copied};
ghost use Rattle.doc_step.specs.Expiry.{seconds, is_expired, there, later, asked, cut_to, expiry_of};
ghost use Rattle.doc_ops.specs.Planning.{setting_of};

use doc_model::Doc;
use doc_step::{LAST_EXPIRY, RELATIVE_LIMIT};

/// What surrounds an operation.
#[derive(Clone, Copy)]
pub(crate) struct Setting {
    /// The greatest lifetime that the collection grants, in seconds, and 0 for any.
    pub max_ttl: u32,
    /// Milliseconds since 1970.
    pub now: u64,
    /// The CAS that a change draws.
    pub draw: u64,
}

/// The document that is there at a moment in milliseconds since 1970.
pub(crate) fn there(now: u64, doc: Option<&Doc>) -> Option<&Doc>
    ensures { option_copied result ≡ there now (option_copied doc.entry) }
{
    doc.filter(|doc| !is_expired(doc.expiry, now))
}

/// The expiry that a document gets whose request has this one.
pub(crate) fn expiry_of(setting: Setting, expiry: u32) -> u32
    ensures { result ≡ expiry_of (setting_of setting) expiry }
{
    let second = seconds(setting.now);
    cut_to(second, setting.max_ttl, asked(second, expiry))
}

/// Seconds since 1970. There may be more of them than an expiry can name.
fn seconds(now: u64) -> u64
    ensures { result ≡ seconds now }
{
    now / 1000
}

/// Whether an expiry has passed. One that equals the second has.
fn is_expired(expiry: u32, now: u64) -> bool
    ensures { result ≡ is_expired expiry now }
{
    expiry != 0 && u64::from(expiry) <= seconds(now)
}

/// The second that lies this many after another, or the last that an expiry can name.
fn later(second: u64, lifetime: u32) -> u32
    ensures { result ≡ later second lifetime }
{
    let end = second.saturating_add(u64::from(lifetime));
    if end < u64::from(LAST_EXPIRY) {
        end as u32
    } else {
        LAST_EXPIRY
    }
}

/// The expiry that a request's own comes to: none, seconds from now, or seconds since 1970.
fn asked(second: u64, expiry: u32) -> u32
    ensures { result ≡ asked second expiry }
{
    if expiry == 0 {
        0
    } else if expiry <= RELATIVE_LIMIT {
        later(second, expiry)
    } else {
        expiry
    }
}

/// An expiry cut to the greatest lifetime. None is later than any.
fn cut_to(second: u64, max_ttl: u32, expiry: u32) -> u32
    ensures { result ≡ cut_to second max_ttl expiry }
{
    if max_ttl == 0 {
        return expiry;
    }
    let last = later(second, max_ttl);
    if expiry == 0 { last } else { expiry.min(last) }
}
