// What a disk in memory has, and what a crash may make of it.
ghost use Rattle.std.specs.Prelude.{◌≡◌, ℕ, ◌+◌, ◌<◌, ◌≤◌, ◌++◌, min, max, [], ◌∷◌, length, take};
ghost use Rattle.std.specs.Prelude.{slice_index, vec_len, vec_capacity};
ghost use Rattle.std.specs.Prelude.{IsTrue, OnOk, OnErr, IfSome};
ghost use Rattle.magma_disk.specs.Device.{grown, resized, overlaid, IsBeside, IsUntouched};

use std::alloc::AllocError;

#[derive(Drop)]
pub(crate) struct Contents {
    pub(crate) bytes: Vec<u8>,
    // the ranges that were written since the last sync, each by its offset and length
    pub(crate) touched: Vec<(usize, usize)>,
    // the least and the greatest length since then
    pub(crate) shortest: usize,
    pub(crate) longest: usize,
    ghost no_shorter: { shortest ≤ vec_len bytes },
    ghost no_longer: { vec_len bytes ≤ longest },
}

impl Contents {
    ghost use Rattle.magma_disk.specs.Contents.{device_of, is_settled};
    ghost use Rattle.magma_disk.specs.Device.{settled, written, cut_to, IsImage};

    /// Whether all of it is on the device.
    pub(crate) fn is_settled(&self) -> bool
        ensures test { result ≡ is_settled (device_of self.now) }
        ensures settled { IsTrue result → device_of self.now ≡ settled self.now.bytes.items }
    {
        self.touched.is_empty()
            && self.shortest == self.bytes.len()
            && self.longest == self.bytes.len()
    }

    /// Writes the first `count` bytes of a piece, and notes that anything may be in its range.
    ///
    /// An error where no memory is found; nothing has changed then.
    pub(crate) fn write(&mut self, at: usize, piece: &[u8], count: usize) -> Result<(), AllocError>
        requires { count ≤ length piece.now }
        ensures ok { OnOk result (device_of self.new
            ≡ written at (length piece.now)
            (overlaid self.old.bytes.items at (take count piece.now)) (device_of self.old)) }
        ensures err { OnErr result (device_of self.new ≡ device_of self.old) }
    {
        let end = end_after(self.bytes.len(), at, piece.len()).ok_or(AllocError)?;
        self.touched.reserve(1)?;
        let (front, _) = piece.split_at(count);
        overlay(&mut self.bytes, at, front)?;
        push_within(&mut self.touched, (at, piece.len()));
        self.longest = self.longest.max(end);
        Ok(())
    }

    /// Gives it the length `part`, and notes that it may have any from there to `length`.
    ///
    /// An error where no memory is found; nothing has changed then.
    pub(crate) fn resize(&mut self, length: usize, part: usize) -> Result<(), AllocError>
        requires least { min (vec_len self.old.bytes) length ≤ part }
        requires most { part ≤ max (vec_len self.old.bytes) length }
        ensures ok { OnOk result (device_of self.new
            ≡ cut_to length (resized part self.old.bytes.items) (device_of self.old)) }
        ensures err { OnErr result (device_of self.new ≡ device_of self.old) }
    {
        let old = self.bytes.len();
        self.bytes.resize(part, 0)?;
        self.shortest = self.shortest.min(length);
        self.longest = self.longest.max(old).max(length);
        Ok(())
    }

    /// Brings all of it to the device.
    pub(crate) fn settle(&mut self)
        ensures { device_of self.new ≡ settled self.old.bytes.items }
    {
        self.touched.clear();
        self.shortest = self.bytes.len();
        self.longest = self.bytes.len();
    }

    /// Leaves what a crash may leave: written ranges are spoilt by the tear, and where it is odd
    /// all past the least length is gone.
    pub(crate) fn tear(&mut self, tear: u64)
        ensures image { IsImage (device_of self.old) self.new.bytes.items }
        ensures settled { device_of self.new ≡ settled self.new.bytes.items }
    {
        spoil_all(&mut self.bytes, &self.touched, tear);
        if tear % 2 == 1 {
            self.bytes.truncate(self.shortest);
        }
        self.settle();
    }
}

/// The length after a write of `count` bytes at an offset, from the length before, where it fits.
fn end_after(size: usize, at: usize, count: usize) -> Option<usize>
    ensures { IfSome result (λ end. end ≡ grown at count size) }
{
    if count == 0 {
        return Some(size);
    }
    let end = at.checked_add(count)?;
    Some(size.max(end))
}

/// Writes a piece at an offset, behind zeros where that is past the end.
fn overlay(bytes: &mut Vec<u8>, at: usize, piece: &[u8]) -> Result<(), AllocError>
    ensures ok { OnOk result (bytes.new.items ≡ overlaid bytes.old.items at piece.now) }
    ensures err { OnErr result (bytes.new.items ≡ bytes.old.items) }
{
    if piece.is_empty() {
        return Ok(());
    }
    let end = at.checked_add(piece.len()).ok_or(AllocError)?;
    bytes.resize(bytes.len().max(end), 0)?;
    bytes[at..end].copy_from_slice(piece);
    Ok(())
}

/// Adds an element to a vector that has room for it.
pub(crate) fn push_within<T: Drop>(items: &mut Vec<T>, item: T)
    requires { vec_len items.old < vec_capacity items.old }
    ensures items { items.new.items ≡ items.old.items ++ item ∷ [] }
    ensures len { vec_len items.new ≡ vec_len items.old + 1 }
    ensures capacity { vec_capacity items.old ≤ vec_capacity items.new }
{
    let _ = items.push(item);
}

/// Spoils the bytes of each range by the tear.
fn spoil_all(bytes: &mut [u8], touched: &[(usize, usize)], tear: u64)
    ensures { (i : ℕ) → IsUntouched touched.now i
        → slice_index bytes.new i ≡ slice_index bytes.old i }
{
    for range in touched {
        spoil(bytes, range.0, range.1, tear);
    }
}

/// Spoils the bytes of a range: each is xored with the tear's byte of its offset's rest by 8.
fn spoil(bytes: &mut [u8], at: usize, count: usize, tear: u64)
    ensures { (i : ℕ) → IsBeside at count i → slice_index bytes.new i ≡ slice_index bytes.old i }
{
    let marks = tear.to_le_bytes();
    let end = at.saturating_add(count).min(bytes.len());
    for i in at..end {
        bytes[i] ^= marks[i % 8];
    }
}
