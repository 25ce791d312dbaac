ghost use Rattle.std.specs.Prelude.{◌≡◌, ◌≤◌, [], ◌∷◌, Some, length, nat_eq, IfOk};
ghost use Rattle.std.specs.List.{list_any};
ghost use Rattle.durability_core.specs.Chains.{IsChain, named_places};

use kv_edge::{Bytes, Copied, NoMemory, Seq};
use std::alloc::Global;

/// The places of a vbucket's copies: 1 to 4, each with a name of 1 to 255 bytes or without one, the
/// first with a name.
#[derive(Debug, PartialEq, Eq, Drop)]
pub struct Chain {
    /// The name of each place, where it has one; places count from 0.
    pub names: Seq<Option<Bytes>>,
}

impl Chain {
    /// The chain of one place, which has a name of 1 to 255 bytes.
    pub fn of_one(alloc: Global, name: &[u8]) -> Result<Chain, NoMemory>
        requires some { 1 ≤ length name.now }
        requires short { length name.now ≤ 255 }
        ensures names { IfOk result (λ made. made.names ≡ Some name.now ∷ []) }
        ensures chain { IfOk result IsChain }
    {
        let mut names = Seq::new(alloc);
        names.push(Some(Bytes::from_slice(alloc, name)?))?;
        Ok(Chain { names })
    }

    /// Whether a place has a name.
    pub fn is_named(&self, place: u8) -> bool
        ensures { result ≡ list_any (nat_eq place) (named_places self.now) }
    {
        match self.names.as_slice().get(place as usize) {
            Some(name) => name.is_some(),
            None => false,
        }
    }

    /// How many places have a name.
    pub fn named_count(&self) -> usize
        ensures { result ≡ length (named_places self.now) }
    {
        self.names
            .as_slice()
            .iter()
            .filter(|name| name.is_some())
            .count()
    }
}

impl Copied for Chain {
    fn copy(&self, alloc: Global) -> Result<Chain, NoMemory> {
        let mut names = Seq::new(alloc);
        for name in self.names.as_slice() {
            names.push(copied_name(alloc, name)?)?;
        }
        Ok(Chain { names })
    }
}

/// An equal name, or none.
fn copied_name(alloc: Global, name: &Option<Bytes>) -> Result<Option<Bytes>, NoMemory>
    ensures { IfOk result (λ made. made ≡ name.now) }
{
    match name {
        Some(name) => Ok(Some(name.copy(alloc)?)),
        None => Ok(None),
    }
}
