//! A store with many tokens, and a key for every tenth.

use crate::known::Account;
use auth_grants::{Grants, Terms};
use b2_base::{BucketNum, KeyNum, List, Moment, Text, VersionNum};
use b2_types::{Key, TokenKind};
use outside_traits::ListWords;
use rule_table::{Cap, CapSet};
use std::alloc::Global;
use std::collections::BTreeMap;

#[derive(Drop)]
pub struct Store {
    pub known: Account,
    pub grants: Grants,
    pub keys: BTreeMap<u32, Key>,
    /// The texts of the tokens, in the order in which they were given.
    pub texts: Vec<Text>,
    pub bucket: BucketNum,
    pub now: Moment,
}

// A key that lists the files of one bucket below a prefix, for a day.
fn key(alloc: Global, num: u32, bucket: BucketNum) -> Option<Key> {
    Some(Key {
        num: KeyNum::new(num)?,
        name: Text::copy(alloc, "backup").ok()?,
        caps: CapSet::none().with(Cap::ListFiles).with(Cap::ReadFiles),
        buckets: List::of(vec![in alloc; bucket].ok()?),
        prefix: Text::copy(alloc, "logs/").ok()?,
        end: Some(Moment::new(86_400_000)?),
        hash: [0; 32],
    })
}

fn terms(alloc: Global, key: u32) -> Option<Terms> {
    Some(Terms {
        kind: TokenKind::Account,
        key: KeyNum::new(key)?,
        bucket: BucketNum::new(0)?,
        file: VersionNum::new(0)?,
        prefix: Text::copy(alloc, "").ok()?,
        end: Moment::new(86_400_000)?,
    })
}

fn add_keys(alloc: Global, store: &mut Store, count: u32) -> Option<()> {
    for before in 0..count {
        let num = before.saturating_add(1);
        let made = key(alloc, num, store.bucket)?;
        store.keys.insert(num, made).ok()?;
    }
    Some(())
}

// The keys get their tokens in turn.
fn key_of(token: u32, keys: u32) -> u32 {
    match token.checked_rem(keys) {
        Some(before) => before.saturating_add(1),
        None => 1,
    }
}

fn add_tokens(alloc: Global, store: &mut Store, tokens: u32, keys: u32) -> Option<()> {
    let mut luck = ListWords::new(Vec::new(alloc));
    for token in 0..tokens {
        let terms = terms(alloc, key_of(token, keys))?;
        let text = store.grants.grant(alloc, 1, terms, &mut luck).ok()?;
        store.texts.push(text).ok()?;
    }
    Some(())
}

/// So many tokens, of a tenth of as many keys.
pub fn store_of(alloc: Global, tokens: u32) -> Option<Store> {
    let mut store = Store {
        known: Account {
            account: Text::copy(alloc, "a1b2c3d4e5f6").ok()?,
        },
        grants: Grants::new(alloc),
        keys: BTreeMap::new(alloc),
        texts: Vec::new(alloc),
        bucket: BucketNum::new(7)?,
        now: Moment::new(1_000)?,
    };
    let keys = tokens / 10;
    add_keys(alloc, &mut store, keys)?;
    add_tokens(alloc, &mut store, tokens, keys)?;
    Some(store)
}
