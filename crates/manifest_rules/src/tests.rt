ghost use Rattle.std.specs.Prelude.{IsTrue, IfOk};
ghost use Rattle.manifest_rules.specs.State.{is_kept};

use crate::{
    Dropped, Manifest, StateFault, apply, apply_text, collection_of, dropped_collections, first,
    foresee_text, has, is_kept, kept_stays_kept, lost_collections, max_ttl, read_manifest,
    read_state, scope_of, state_into, text, uid,
};
use doc_model::{Refused, Status};
use kv_edge::NoMemory;
use std::alloc::Global;
use std::test::Fail;

const FIRST: &str =
    r#"{"uid":"0","scopes":[{"name":"_default","uid":"0","collections":[{"name":"_default","uid":"0"}]}]}"#;

const FRUIT: &str =
    r#"{"uid":"1","scopes":[{"name":"_default","uid":"0","collections":[{"name":"_default","uid":"0"},{"name":"fruit","uid":"8"}]}]}"#;

const WITHOUT_FRUIT: &str =
    r#"{"uid":"1","scopes":[{"name":"_default","uid":"0","collections":[{"name":"_default","uid":"0"}]}]}"#;

const LATER: &str =
    r#"{"uid":"2","scopes":[{"name":"_default","uid":"0","collections":[{"name":"_default","uid":"0"}]}]}"#;

const PEAR: &str =
    r#"{"uid":"2","scopes":[{"name":"_default","uid":"0","collections":[{"name":"_default","uid":"0"},{"name":"pear","uid":"8"}]}]}"#;

const FRUIT_AGAIN: &str =
    r#"{"uid":"3","scopes":[{"name":"_default","uid":"0","collections":[{"name":"_default","uid":"0"},{"name":"fruit","uid":"8"}]}]}"#;

// The status with which a text is refused over a manifest, or 0 where it is applied.
fn over(alloc: Global, old: &mut Manifest, text: &str) -> Result<u16, NoMemory>
    ensures { IsTrue (is_kept old.old) → IsTrue (is_kept old.new) }
{
    status_or_0(apply_text(alloc, old, text.as_bytes()))
}

// The same over the first manifest, where the text is read before it is applied.
fn alone(alloc: Global, text: &str) -> Result<u16, NoMemory> {
    let mut manifest = first(alloc)?;
    match read_manifest(alloc, text.as_bytes()) {
        Ok(new) => status_or_0(apply(alloc, &mut manifest, new)),
        Err(refused) => status_or_0(Err(refused)),
    }
}

fn status_or_0(answer: Result<Dropped, Refused>) -> Result<u16, NoMemory> {
    match answer {
        Ok(_dropped) => Ok(0),
        Err(Refused::Status(status)) => Ok(status.code),
        Err(Refused::NoMemory) => Err(NoMemory),
    }
}

// The id or the status that a path comes to.
fn id_or_status(answer: Result<u32, Status>) -> (u32, u16) {
    match answer {
        Ok(id) => (id, 0),
        Err(status) => (0, status.code),
    }
}

#[test]
fn a_collection_comes_and_goes_and_never_comes_back(rt: HostRuntime) -> Result<(), Fail> {
    let alloc = rt.alloc();
    let mut manifest = first(alloc)?;
    let cases: [(&str, u16); 7] = [
        (FRUIT, 0),
        (FRUIT, 0),
        (WITHOUT_FRUIT, 0x8a),
        (FIRST, 0x8b),
        (PEAR, 0x8a),
        (LATER, 0),
        (FRUIT_AGAIN, 0x8a),
    ];
    for (text, wanted) in cases {
        assert_eq!(rt; over(alloc, &mut manifest, text)?, wanted, "{text}");
    }
    assert_eq!(rt; uid(&manifest), 2);
    Ok(())
}

// A manifest with `fruit` as collection 8.
fn with_fruit(alloc: Global) -> Result<Manifest, NoMemory>
    ensures { IfOk result (λ m. IsTrue (is_kept m)) }
{
    kept_stays_kept();
    let mut manifest = first(alloc)?;
    over(alloc, &mut manifest, FRUIT)?;
    Ok(manifest)
}

// The same without `fruit` again.
fn without_fruit(alloc: Global) -> Result<Manifest, NoMemory>
    ensures { IfOk result (λ m. IsTrue (is_kept m)) }
{
    let mut manifest = with_fruit(alloc)?;
    over(alloc, &mut manifest, LATER)?;
    Ok(manifest)
}

#[test]
fn what_a_manifest_would_drop_is_foreseen(rt: HostRuntime) -> Result<(), Fail> {
    let alloc = rt.alloc();
    let before = with_fruit(alloc)?;
    let after = without_fruit(alloc)?;
    match foresee_text(alloc, &before, LATER.as_bytes()) {
        Ok(dropped) => {
            assert_eq!(rt; dropped.collections.as_slice(), [8].as_slice());
            assert!(rt; dropped.changed);
        }
        Err(refused) => assert_eq!(rt; refused, Refused::Status(Status::SUCCESS)),
    }
    assert_eq!(rt; uid(&before), 1);
    assert_eq!(rt;
        lost_collections(alloc, &before, &after)?.as_slice(),
        [8].as_slice()
    );
    assert!(rt; lost_collections(alloc, &after, &before)?.is_empty());
    assert!(rt; is_kept(alloc, &after)?);
    Ok(())
}

#[test]
fn a_dropped_collection_is_remembered(rt: HostRuntime) -> Result<(), Fail> {
    let manifest = without_fruit(rt.alloc())?;
    assert!(rt; !has(&manifest, 8));
    assert_eq!(rt; max_ttl(&manifest, 8), 0);
    assert_eq!(rt; dropped_collections(&manifest), [8].as_slice());
    Ok(())
}

#[test]
fn paths_lead_to_collections(rt: HostRuntime) -> Result<(), Fail> {
    let manifest = with_fruit(rt.alloc())?;
    let cases: [(&str, (u32, u16)); 6] = [
        ("_default.fruit", (8, 0)),
        (".fruit", (8, 0)),
        (".", (0, 0)),
        ("_default.pear", (0, 0x88)),
        ("_default", (0, 0x04)),
        ("a.b.c", (0, 0x04)),
    ];
    for (path, wanted) in cases {
        let found = id_or_status(collection_of(&manifest, path.as_bytes()));
        assert_eq!(rt; found, wanted, "{path}");
    }
    Ok(())
}

#[test]
fn paths_lead_to_scopes(rt: HostRuntime) -> Result<(), Fail> {
    let manifest = with_fruit(rt.alloc())?;
    let cases: [(&str, (u32, u16)); 3] = [
        ("nowhere", (0, 0x8c)),
        ("_default", (0, 0)),
        (".fruit", (0, 0)),
    ];
    for (path, wanted) in cases {
        let found = id_or_status(scope_of(&manifest, path.as_bytes()));
        assert_eq!(rt; found, wanted, "{path}");
    }
    Ok(())
}

// What the collections of a manifest with uid 1 and the default scope come to over the first manifest.
#[test]
fn collections_have_a_form_and_obey_rules(rt: HostRuntime) -> Result<(), Fail> {
    let alloc = rt.alloc();
    let cases: [(&str, u16); 14] = [
        (r#"{"name":"_default","uid":"0","maxTTL":4294967295}"#, 0),
        (r#"{"name":"_default","uid":"0","maxTTL":4294967296}"#, 0x04),
        (r#"{"name":"_default","uid":"0","maxTTL":1.5}"#, 0x04),
        (r#"{"name":"_default","uid":"0","maxTTL":-1}"#, 0x04),
        (r#"{"name":"_default","uid":"000000000"}"#, 0x04),
        (r#"{"name":"_default","uid":0}"#, 0x04),
        (r#"{"uid":"0"}"#, 0x04),
        (r#"{"name":"a","uid":"1"}"#, 0x8a),
        (r#"{"name":"a","uid":"7"}"#, 0x8a),
        (r#"{"name":"a","uid":"A"}"#, 0),
        (r#"{"name":"a","uid":"a"},{"name":"b","uid":"A"}"#, 0x8a),
        (r#"{"name":"a","uid":"8"},{"name":"a","uid":"9"}"#, 0x8a),
        (r#"{"name":"a b","uid":"8"}"#, 0x8a),
        (r#"{"name":"fruit","uid":"0"}"#, 0x8a),
    ];
    for (collections, wanted) in cases {
        let text = format!(in alloc;
            r#"{{"uid":"1","scopes":[{{"name":"_default","uid":"0","collections":[{collections}]}}]}}"#
        )?;
        assert_eq!(rt; alone(alloc, text.as_str())?, wanted, "{collections}");
    }
    Ok(())
}

#[test]
fn manifests_have_a_form_and_obey_rules(rt: HostRuntime) -> Result<(), Fail> {
    let alloc = rt.alloc();
    let cases: [(&str, u16); 8] = [
        ("{", 0x04),
        ("[]", 0x04),
        (r#"{"uid":"1"}"#, 0x04),
        (r#"{"uid":"00000000000000001","scopes":[]}"#, 0x04),
        (
            r#"{"uid":"1","scopes":[{"name":"_default","uid":"0"}]}"#,
            0x04,
        ),
        (r#"{"uid":"1","scopes":[]}"#, 0x8a),
        (
            r#"{"uid":"1","scopes":[{"name":"_default","uid":"0","collections":[{"name":"a","uid":"8"}]},{"name":"s","uid":"8","collections":[{"name":"a","uid":"9"}]}]}"#,
            0,
        ),
        (
            r#"{"uid":"1","scopes":[{"name":"_default","uid":"0","collections":[]},{"name":"s","uid":"8","collections":[{"name":"_default","uid":"0"}]}]}"#,
            0x8a,
        ),
    ];
    for (text, wanted) in cases {
        assert_eq!(rt; alone(alloc, text)?, wanted, "{text}");
    }
    Ok(())
}

#[test]
fn the_text_is_written_in_one_way(rt: HostRuntime) -> Result<(), Fail> {
    let manifest = without_fruit(rt.alloc())?;
    let text = text(rt.alloc(), &manifest)?;
    assert_eq!(rt; text.as_slice(), LATER.as_bytes());
    Ok(())
}

// The state of the manifest without `fruit`: 0x62 = 98 bytes of text, no scope, one collection.
fn state(alloc: Global) -> Result<Vec<u8>, NoMemory> {
    let manifest = without_fruit(alloc)?;
    let mut state = Vec::new(alloc);
    state_into(&manifest, &mut state)?;
    Ok(state)
}

// The uid of the manifest whose state begins the bytes and how many bytes it has, or the place at which they break off.
fn read(alloc: Global, bytes: &[u8]) -> (u64, usize) {
    match read_state(alloc, bytes) {
        Ok((manifest, size)) => (uid(&manifest), size),
        Err(StateFault::Bad(place)) => (0, place),
        Err(StateFault::NoMemory) => (1, 1),
    }
}

#[test]
fn the_state_is_read_back(rt: HostRuntime) -> Result<(), Fail> {
    let alloc = rt.alloc();
    let state = state(alloc)?;
    assert_eq!(rt; state.len(), 4 + 98 + 4 + 8);
    assert_eq!(rt; read(alloc, &state), (2, 114));
    let cases: [(usize, usize); 10] = [
        (0, 0),
        (3, 0),
        (4, 4),
        (101, 4),
        (102, 102),
        (105, 102),
        (106, 106),
        (109, 106),
        (110, 110),
        (113, 110),
    ];
    for (length, place) in cases {
        let (cut, _) = state.split_at(length.min(state.len()));
        assert_eq!(rt; read(alloc, cut), (0, place), "{length}");
    }
    Ok(())
}

// The first bytes of a state, and numbers in place of those behind them.
fn with_numbers(
    alloc: Global,
    state: &[u8],
    length: usize,
    numbers: &[u32],
) -> Result<Vec<u8>, NoMemory> {
    let (front, _) = state.split_at(length.min(state.len()));
    let mut bytes = Vec::from_slice(alloc, front)?;
    for number in numbers {
        bytes.extend_from_slice(&number.to_be_bytes())?;
    }
    Ok(bytes)
}

#[test]
fn the_first_wrong_field_of_a_state_is_told(rt: HostRuntime) -> Result<(), Fail> {
    let alloc = rt.alloc();
    let state = state(alloc)?;
    let cases: [(usize, &[u32], (u64, usize)); 10] = [
        // the length of the text
        (0, [1_048_577].as_slice(), (0, 0)),
        (0, [1_048_576].as_slice(), (0, 4)),
        // a count
        (102, [65_537].as_slice(), (0, 102)),
        (102, [65_536].as_slice(), (0, 106)),
        (102, [0, 65_537].as_slice(), (0, 106)),
        // an id that is there
        (102, [1, 0].as_slice(), (0, 106)),
        (102, [0, 2, 8, 0].as_slice(), (0, 114)),
        // ids that don't rise, and ids that do
        (102, [0, 2, 8, 8].as_slice(), (0, 114)),
        (102, [0, 3, 8, 10, 9].as_slice(), (0, 118)),
        (102, [0, 3, 8, 9, 10].as_slice(), (2, 122)),
    ];
    for (length, numbers, wanted) in cases {
        let bytes = with_numbers(alloc, &state, length, numbers)?;
        assert_eq!(rt; read(alloc, &bytes), wanted, "{length} {numbers:?}");
    }
    Ok(())
}
