//! The bytes of at most one frame.

ghost use Rattle.std.specs.Prelude.{◌≡◌, ◌≤◌, ◌++◌, [], min, length, take, IfOk, OnErr, vec_capacity};
ghost use Rattle.kv_session.specs.Filling.{Fills, IsHeld};

use kv_edge::NoMemory;
use kv_frame::{Judged, Side, judge};

/// How many bytes of memory are kept at most where nothing is held. A buffer that a longer frame needed is given back.
pub const KEPT_LIMIT: usize = 65_536;

/// Takes bytes from the front of a piece until it ends, or a whole frame is held, or no frame can begin so; answers how
/// many. Memory is taken for a header, and when it is known for the body that it announces. At `Err` nothing was taken.
pub(crate) fn fill(held: &mut Vec<u8>, piece: &[u8]) -> Result<usize, NoMemory>
    requires { IsHeld held.old }
    ensures ok { IfOk result (λ n. Fills held.old.items piece.now held.new.items n) }
    ensures err { OnErr result (held.new.items ≡ held.old.items) }
    ensures held { IsHeld held.new }
{
    let before = held.len();
    let mut taken = 0;
    while taken < piece.len() {
        let Judged::More(missing) = judge(Side::Requests, held) else {
            break;
        };
        let (_, rest) = piece.split_at(taken);
        match fill_up(held, rest, missing) {
            Ok(count) => taken += count,
            Err(refused) => {
                shorten(held, before);
                return Err(refused);
            }
        }
    }
    Ok(taken)
}

/// Adds as many bytes as are missing, or as many as there are.
fn fill_up(held: &mut Vec<u8>, rest: &[u8], missing: usize) -> Result<usize, NoMemory>
    ensures ok { IfOk result (λ n. (n ≡ min missing (length rest.now)) × (held.new.items ≡ held.old.items ++ take n rest.now)) }
    ensures err { OnErr result (held.new.items ≡ held.old.items) }
{
    held.reserve_exact(missing)?;
    let (front, _) = rest.split_at(missing.min(rest.len()));
    held.extend_from_slice(front)?;
    Ok(front.len())
}

/// Cuts what is held to its first bytes, this many.
fn shorten(held: &mut Vec<u8>, count: usize)
    ensures front { held.new.items ≡ take count held.old.items }
    ensures kept { held.new.items ≡ [] → vec_capacity held.new ≤ KEPT_LIMIT }
{
    held.truncate(count);
    if held.is_empty() {
        release(held);
    }
}

/// Forgets what is held, and gives its memory back where that is more than is kept.
pub(crate) fn release(held: &mut Vec<u8>)
    ensures empty { held.new.items ≡ [] }
    ensures kept { vec_capacity held.new ≤ KEPT_LIMIT }
{
    held.clear();
    if held.capacity() > KEPT_LIMIT {
        held.shrink_to_fit();
    }
}
