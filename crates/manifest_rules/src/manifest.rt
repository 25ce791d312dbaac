ghost use Rattle.std.specs.Prelude.{◌≡◌, ◌∷◌, [], ℕ, is_some, IfOk, OnOk, IsTrue};
ghost use Rattle.std.specs.Option.{option_or};
ghost use Rattle.std.specs.BTreeMap.{get};
ghost use Rattle.std.specs.Ordering.{nat_cmp};
ghost use Rattle.manifest_rules.specs.Catalog.{numbers_fit, collections_in, collection_at, max_ttl_of};
ghost use Rattle.manifest_rules.specs.Rules.{first_catalog};
ghost use Rattle.manifest_rules.specs.Lifetimes.{ttl_in, HasLifetimes};
ghost use Rattle.manifest_rules.specs.State.{are_rising};

use crate::types::{Collection, Scope};
use kv_edge::{Bytes, Copied, NoMemory, Seq};
use std::alloc::Global;
use std::collections::BTreeMap;
use std::marker::Model;

/// A manifest: its uid, its scopes and collections, and the ids that were ever dropped.
#[derive(Drop)]
pub struct Manifest {
    uid: u64,
    scopes: Seq<Scope>,
    /// In rising order.
    dropped_scopes: Seq<u32>,
    /// In rising order.
    dropped_collections: Seq<u32>,
    /// The greatest lifetime of each collection, by id.
    lifetimes: BTreeMap<u32, u32>,
}

impl Model for Manifest {
    ghost use Rattle.std.specs.Prelude.{IsTrue};
    ghost use Rattle.manifest_rules.specs.Catalog.{Catalog, numbers_fit, collections_in};
    ghost use Rattle.manifest_rules.specs.Lifetimes.{HasLifetimes};
    ghost use Rattle.manifest_rules.specs.State.{are_rising};

    ghost Value = { Catalog };

    ghost view = { λ m. record { uid = m.uid; scopes = m.scopes; dropped_scopes = m.dropped_scopes; dropped_collections = m.dropped_collections } };

    ghost invariant = { λ m. IsTrue (numbers_fit m.uid m.scopes) × HasLifetimes m.lifetimes (collections_in m.scopes)
        × IsTrue (are_rising m.dropped_scopes) × IsTrue (are_rising m.dropped_collections) };
}

impl Copied for Manifest {
    fn copy(&self, alloc: Global) -> Result<Manifest, NoMemory> {
        let scopes = self.scopes.copy(alloc)?;
        let dropped_scopes = copy_ids(alloc, &self.dropped_scopes)?;
        let dropped_collections = copy_ids(alloc, &self.dropped_collections)?;
        manifest_of(alloc, self.uid, scopes, dropped_scopes, dropped_collections)
    }
}

/// A copy of ids.
fn copy_ids(alloc: Global, ids: &Seq<u32>) -> Result<Seq<u32>, NoMemory>
    ensures { IfOk result (λ copied. copied ≡ ids.now) }
{
    Ok(Seq::from_vec(Vec::from_slice(alloc, ids.as_slice())?))
}

/// The manifest of these parts.
pub(crate) fn manifest_of(
    alloc: Global,
    uid: u64,
    scopes: Seq<Scope>,
    dropped_scopes: Seq<u32>,
    dropped_collections: Seq<u32>,
) -> Result<Manifest, NoMemory>
    requires fits { IsTrue (numbers_fit uid scopes) }
    requires scopes_rise { IsTrue (are_rising dropped_scopes) }
    requires collections_rise { IsTrue (are_rising dropped_collections) }
    ensures { IfOk result (λ m. m ≡ record { uid = uid; scopes = scopes; dropped_scopes = dropped_scopes; dropped_collections = dropped_collections }) }
{
    let lifetimes = lifetimes_of(alloc, scopes.as_slice())?;
    Ok(Manifest {
        uid,
        scopes,
        dropped_scopes,
        dropped_collections,
        lifetimes,
    })
}

/// The greatest lifetimes of the collections of all scopes, by id. Where an id comes twice, the first counts.
fn lifetimes_of(alloc: Global, scopes: &[Scope]) -> Result<BTreeMap<u32, u32>, NoMemory>
    ensures { IfOk result (λ m. HasLifetimes m (collections_in scopes.now)) }
{
    let mut lifetimes = BTreeMap::new(alloc);
    for scope in scopes {
        add_lifetimes(&mut lifetimes, scope.collections.as_slice())?;
    }
    Ok(lifetimes)
}

/// Adds the lifetimes of collections whose ids aren't there yet.
fn add_lifetimes(
    lifetimes: &mut BTreeMap<u32, u32>,
    collections: &[Collection],
) -> Result<(), NoMemory>
    ensures { OnOk result ((id : ℕ) → get nat_cmp lifetimes.new id ≡ option_or (get nat_cmp lifetimes.old id) (ttl_in collections.now id)) }
{
    for collection in collections {
        add_lifetime(lifetimes, collection)?;
    }
    Ok(())
}

/// Adds the lifetime of a collection whose id isn't there yet.
fn add_lifetime(lifetimes: &mut BTreeMap<u32, u32>, collection: &Collection) -> Result<(), NoMemory>
    ensures { OnOk result ((id : ℕ) → get nat_cmp lifetimes.new id ≡ option_or (get nat_cmp lifetimes.old id) (ttl_in (collection.now ∷ []) id)) }
{
    if lifetimes.get(&collection.id).is_none() {
        lifetimes.insert(collection.id, collection.max_ttl)?;
    }
    Ok(())
}

/// The manifest that a store begins with: scope 0 and in it collection 0, both called `_default`.
pub fn first(alloc: Global) -> Result<Manifest, NoMemory>
    ensures { IfOk result (λ m. m ≡ first_catalog) }
{
    let mut collections = Seq::new(alloc);
    collections.push(Collection {
        name: Bytes::from_slice(alloc, b"_default")?,
        id: 0,
        max_ttl: 0,
    })?;
    let mut scopes = Seq::new(alloc);
    scopes.push(Scope {
        name: Bytes::from_slice(alloc, b"_default")?,
        id: 0,
        collections,
    })?;
    manifest_of(alloc, 0, scopes, Seq::new(alloc), Seq::new(alloc))
}

/// The uid, which rises with each manifest. The numbers of a manifest are within their bounds.
pub fn uid(manifest: &Manifest) -> u64
    ensures value { result ≡ manifest.now.uid }
    ensures fits { IsTrue (numbers_fit manifest.now.uid manifest.now.scopes) }
{
    manifest.uid
}

/// The ids of scopes that were ever dropped, in rising order.
pub fn dropped_scopes(manifest: &Manifest) -> &[u32]
    ensures value { result.now ≡ manifest.now.dropped_scopes }
    ensures rising { IsTrue (are_rising result.now) }
{
    manifest.dropped_scopes.as_slice()
}

/// The ids of collections that were ever dropped, in rising order.
pub fn dropped_collections(manifest: &Manifest) -> &[u32]
    ensures value { result.now ≡ manifest.now.dropped_collections }
    ensures rising { IsTrue (are_rising result.now) }
{
    manifest.dropped_collections.as_slice()
}

/// Whether there is a collection with this id.
pub fn has(manifest: &Manifest, collection: u32) -> bool
    ensures { result ≡ is_some (collection_at manifest.now.scopes collection) }
{
    manifest.lifetimes.get(&collection).is_some()
}

/// The greatest lifetime of the documents of a collection in seconds, 0 for any, as where there is no such collection.
pub fn max_ttl(manifest: &Manifest, collection: u32) -> u32
    ensures { result ≡ max_ttl_of manifest.now.scopes collection }
{
    match manifest.lifetimes.get(&collection) {
        Some(lifetime) => *lifetime,
        None => 0,
    }
}

/// The scopes, in order.
pub(crate) fn scopes(manifest: &Manifest) -> &[Scope]
    ensures { result.now ≡ manifest.now.scopes }
{
    manifest.scopes.as_slice()
}

/// The manifest with other dropped ids.
pub(crate) fn with_dropped(
    manifest: Manifest,
    dropped_scopes: Seq<u32>,
    dropped_collections: Seq<u32>,
) -> Manifest
    requires scopes_rise { IsTrue (are_rising dropped_scopes) }
    requires collections_rise { IsTrue (are_rising dropped_collections) }
    ensures { result ≡ record { uid = manifest.uid; scopes = manifest.scopes; dropped_scopes = dropped_scopes; dropped_collections = dropped_collections } }
{
    let Manifest {
        uid,
        scopes,
        lifetimes,
        ..
    } = manifest;
    Manifest {
        uid,
        scopes,
        dropped_scopes,
        dropped_collections,
        lifetimes,
    }
}
