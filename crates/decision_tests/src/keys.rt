//! Ids, secrets, and the making, deletion and pages of keys.

use app_keys::{
    KeyId, KeyRefusal, NewKey, check_secret, keys_create, keys_delete, keys_page, secret_text,
};
use b2_base::{BucketNum, KeyNum, List, Moment, Or, Text};
use b2_types::{ApiVersion, CreateKey, Key};
use outside_traits::ListWords;
use rule_table::{Cap, CapSet};
use std::alloc::Global;
use std::collections::BTreeMap;
use std::test::Fail;

const SECRET: &str = "K0010000000000000003000000000000000400000000000000050000000000000006";

fn number(key: u32) -> Result<KeyNum, Fail> {
    Ok(KeyNum::new(key).ok_or("key")?)
}

fn key(alloc: Global, num: u32, caps: CapSet) -> Result<Key, Fail> {
    Ok(Key {
        num: number(num)?,
        name: Text::copy(alloc, "maker")?,
        caps,
        buckets: List::of(Vec::new(alloc)),
        prefix: Text::copy(alloc, "")?,
        end: None,
        hash: [0; 32],
    })
}

fn call(alloc: Global, caps: CapSet, bucket: Option<u32>) -> Result<CreateKey, Fail> {
    let buckets = match bucket {
        Some(bucket) => {
            let bucket = BucketNum::new(bucket).ok_or("bucket")?;
            Some(List::of(vec![in alloc; bucket]?))
        }
        None => None,
    };
    Ok(CreateKey {
        version: ApiVersion::V3,
        account: Text::copy(alloc, "a1b2c3d4e5f6")?,
        caps,
        name: Text::copy(alloc, "k")?,
        duration: Some(60),
        buckets,
        prefix: None,
    })
}

#[test]
fn ids_and_secrets(rt: HostRuntime) -> Result<(), Fail> {
    let alloc = rt.alloc();
    let account = Text::copy(alloc, "a1b2c3d4e5f6")?;
    for (num, id) in [
        (0, "a1b2c3d4e5f6"),
        (2, "001a1b2c3d4e5f60000000002"),
        (u32::MAX, "001a1b2c3d4e5f600ffffffff"),
    ] {
        assert_eq!(rt; KeyId::write(alloc, &account, number(num)?)?.get(), id);
        assert_eq!(rt; KeyId::read(&account, id.as_bytes()), Some(number(num)?));
        assert_eq!(rt; KeyId::number(id.as_bytes()), Some(number(num)?));
    }
    for id in [
        "",
        "001a1b2c3d4e5f60000000000",
        "001a1b2c3d4e5f700000000002",
        "a1b2c3d4e5f7",
    ] {
        assert_eq!(rt; KeyId::read(&account, id.as_bytes()), None);
    }
    assert_eq!(rt; secret_text(alloc, [3, 4, 5, 6])?.get(), SECRET);
    Ok(())
}

// What comes of the call by a key that lists files and makes keys. No key or call outlives it.
fn create(
    alloc: Global,
    caps: CapSet,
    bucket: Option<u32>,
    next: u32,
    luck: &mut ListWords,
) -> Result<Result<NewKey, Or<KeyRefusal>>, Fail> {
    let next = number(next)?;
    let t = moment(1000)?;
    let call = call(alloc, caps, bucket)?;
    let maker = key(
        alloc,
        1,
        CapSet::none().with(Cap::ListFiles).with(Cap::WriteKeys),
    )?;
    Ok(keys_create(alloc, Some(&maker), next, t, &call, luck))
}

fn refused(
    alloc: Global,
    caps: CapSet,
    bucket: Option<u32>,
    next: u32,
) -> Result<Option<KeyRefusal>, Fail> {
    let mut luck = ListWords::new(Vec::new(alloc));
    match create(alloc, caps, bucket, next, &mut luck)? {
        Err(Or::Fault(refusal)) => Ok(Some(refusal)),
        _ => Ok(None),
    }
}

// The key's end, and whether its secret is that of the words 3 to 6, is taken as its secret, and another
// is not.
fn facts(made: &NewKey) -> (Option<Moment>, bool, bool, bool) {
    let is_theirs = made.secret.get() == SECRET;
    let is_taken = check_secret(&made.key, SECRET.as_bytes());
    let is_other_refused = !check_secret(&made.key, b"K001");
    (made.key.end, is_theirs, is_taken, is_other_refused)
}

fn made(alloc: Global, caps: CapSet) -> Result<(Option<Moment>, bool, bool, bool), Fail> {
    let mut luck = ListWords::new(vec![in alloc; 3, 4, 5, 6]?);
    match create(alloc, caps, Some(1), 2, &mut luck)? {
        Ok(made) => Ok(facts(&made)),
        Err(_) => Err(Fail::from("no key")),
    }
}

fn deleted(alloc: Global, num: u32) -> Result<Result<KeyNum, KeyRefusal>, Fail> {
    let key = key(alloc, num, CapSet::all())?;
    Ok(keys_delete(&key))
}

#[test]
fn key_with_a_prefix(rt: HostRuntime) -> Result<(), Fail> {
    let alloc = rt.alloc();
    let caps = CapSet::none().with(Cap::ListFiles);
    for (caps, bucket, next, refusal) in [
        (caps.with(Cap::ReadFiles), None, 2, KeyRefusal::KeyCaps),
        (caps.with(Cap::WriteKeys), Some(1), 2, KeyRefusal::KeyLimit),
        (caps, Some(1), u32::MAX, KeyRefusal::Cap),
    ] {
        assert_eq!(rt; refused(alloc, caps, bucket, next)?, Some(refusal));
    }
    let end = Some(moment(61_000)?);
    assert_eq!(rt; made(alloc, caps)?, (end, true, true, true));
    assert_eq!(rt; deleted(alloc, 2)?, Ok(number(2)?));
    assert_eq!(rt; deleted(alloc, 0)?, Err(KeyRefusal::Master));
    Ok(())
}

fn moment(at: u64) -> Result<Moment, Fail> {
    Ok(Moment::new(at).ok_or("moment")?)
}

// How many rows the first page of no keys has, and whether another follows.
fn page_of_none(alloc: Global) -> Result<(usize, bool), Fail> {
    let start = number(0)?;
    let keys: BTreeMap<u32, Key> = BTreeMap::new(alloc);
    let page = keys_page(alloc, &keys, start, Some(2))?;
    Ok((page.rows.len(), page.next.is_some()))
}

#[test]
fn page_of_no_keys(rt: HostRuntime) -> Result<(), Fail> {
    assert_eq!(rt; page_of_none(rt.alloc())?, (0, false));
    Ok(())
}
