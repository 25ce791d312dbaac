ghost use Rattle.std.specs.Prelude.{◌≡◌, ◌++◌, ◌∷◌, OnOk, OnErr};
ghost use Rattle.std.specs.Int.{w64, to_be_bytes};
ghost use Rattle.vb_log.specs.Spelling.{IsAllowed, spelling};

use crate::documents::{add_doc, add_sized, add_what};
use crate::entry::Entry;
use crate::keys::add_key;
use crate::kinds::{ABORT, COMMIT, DELETION, MANIFEST, MUTATION, PREPARE};
use kv_edge::NoMemory;

/// Appends the bytes of an entry, which has to be one that the layout allows. `NoMemory` comes where
/// memory is refused, and then nothing is appended.
pub fn entry_into(entry: &Entry, out: &mut Vec<u8>) -> Result<(), NoMemory>
    requires { IsAllowed entry.now }
    ensures ok { OnOk result (out.new.items ≡ out.old.items ++ spelling entry.now) }
    ensures err { OnErr result (out.new.items ≡ out.old.items) }
{
    let alloc = *out.allocator();
    let mut spelt = Vec::new(alloc);
    add_entry(&mut spelt, entry)?;
    out.extend_from_slice(spelt.as_slice())?;
    Ok(())
}

/// Appends an entry.
fn add_entry(out: &mut Vec<u8>, entry: &Entry) -> Result<(), NoMemory>
    requires { IsAllowed entry.now }
    ensures { OnOk result (out.new.items ≡ out.old.items ++ spelling entry.now) }
{
    match entry {
        Entry::Mutation { key, doc } => {
            out.push(MUTATION)?;
            add_key(out, key)?;
            add_doc(out, doc)?;
            Ok(())
        }
        Entry::Deletion { key, cas } => {
            out.push(DELETION)?;
            add_key(out, key)?;
            out.extend_from_slice(&cas.to_be_bytes())?;
            Ok(())
        }
        Entry::Prepare { key, what, level } => {
            out.push(PREPARE)?;
            out.push(*level)?;
            add_key(out, key)?;
            add_what(out, what)?;
            Ok(())
        }
        Entry::Commit { of } => {
            add_position(out, COMMIT, *of)?;
            Ok(())
        }
        Entry::Abort { of } => {
            add_position(out, ABORT, *of)?;
            Ok(())
        }
        Entry::Manifest { text } => {
            out.push(MANIFEST)?;
            add_sized(out, text.as_slice())?;
            Ok(())
        }
    }
}

/// Appends what says which entry it is, and the position that it names.
fn add_position(out: &mut Vec<u8>, kind: u8, of: u64) -> Result<(), NoMemory>
    ensures { OnOk result (out.new.items ≡ out.old.items ++ kind ∷ to_be_bytes w64 of) }
{
    out.push(kind)?;
    out.extend_from_slice(&of.to_be_bytes())?;
    Ok(())
}
