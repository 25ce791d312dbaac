//! What those who feed a session rely on, as laws of what its calls do.

ghost use Rattle.std.specs.Prelude.{◌≡◌, ℕ, List, codes};
ghost use Rattle.kv_frame.specs.declared.frame.Frame.{Frame};
ghost use Rattle.kv_session.specs.Session.{Line, new_line};
ghost use Rattle.kv_session.specs.Cutting.{Event, Runs, IsWhole, IsRead, IsDrained, AsksAll, bytes_taken, given};

use crate::answers::{
    FEATURE_COLLECTIONS, FEATURE_DURABILITY, FEATURE_FLEX, FEATURE_JSON, FEATURE_TOKEN,
    FEATURE_XATTR, FEATURE_XERROR, VERSION_TEXT,
};
use crate::filling::KEPT_LIMIT;

/// However the bytes of a connection are cut into pieces, and whenever the session is asked, what it gave out and where
/// it stands are what the frames of the bytes taken, read as one list, say.
pub fn any_cutting()
    ensures { (events : List Event) (line : Line) → Runs new_line events line → (frames : List Frame) × IsWhole events line frames }
{}

/// Bytes are read in one way: where nothing more is to be given out, the frames and the rest are the same.
pub fn one_reading()
    ensures { (bytes : List ℕ) (frames others : List Frame) (rest left : List ℕ) →
        IsRead bytes frames rest → IsDrained frames rest → IsRead bytes others left → IsDrained others left →
        (frames ≡ others) × (rest ≡ left) }
{}

/// Two sessions that took the same bytes, in whatever pieces, and were each asked until nothing more was to be given
/// out, gave out the same and stand at the same place.
pub fn two_cuttings()
    ensures { (events others : List Event) (line end : Line) → AsksAll events line → AsksAll others end →
        bytes_taken events ≡ bytes_taken others → (given events ≡ given others) × (line ≡ end) }
{}

/// The features, the version and the memory that is kept are these.
pub fn session_numbers()
    ensures token { FEATURE_TOKEN ≡ 4 }
    ensures xattr { FEATURE_XATTR ≡ 6 }
    ensures xerror { FEATURE_XERROR ≡ 7 }
    ensures json { FEATURE_JSON ≡ 11 }
    ensures flex { FEATURE_FLEX ≡ 16 }
    ensures durability { FEATURE_DURABILITY ≡ 17 }
    ensures collections { FEATURE_COLLECTIONS ≡ 18 }
    ensures kept { KEPT_LIMIT ≡ 65536 }
    ensures version { VERSION_TEXT.now ≡ codes "1.0.0" }
{}
