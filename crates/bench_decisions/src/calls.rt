//! The policy of one call.

use crate::store::Store;
use b2_base::Text;
use b2_types::{Denial, Grant, Key, Target, need_of};
use policy_rules::{Asked, Asker, Fields, call_rule, name_rule, token_rule};
use rule_table::CallName;

// A prime number of steps, so that tokens that are asked for in turn lie far apart.
const STRIDE: u64 = 7_919;

// The text of the token of this turn; none where the store has none.
fn text_at(store: &Store, turn: u64) -> Option<&Text> {
    let count = store.texts.len() as u64;
    if count == 0 {
        return None;
    }
    let place = turn.wrapping_mul(STRIDE) % count;
    store.texts.get(place as usize)
}

// Who asks with this text.
fn asker<'a>(store: &'a Store, text: &'a Text) -> Asker<'a> {
    let token = text.get().as_bytes();
    let grant: Option<&Grant> = store.grants.find(token);
    let key: Option<&Key> = match grant {
        Some(grant) => store.keys.get(&grant.key.get()),
        None => None,
    };
    Asker {
        token: Some(token),
        grant,
        key,
    }
}

// The rules of a listing of the store's bucket.
fn judge(store: &Store, asker: &Asker<'_>) -> Result<(), Denial> {
    let need = need_of(CallName::ListFileNames);
    token_rule(asker, need.tokens, Target::Nothing, store.now)?;
    let asked = Asked {
        need,
        more: &[],
        fields: Fields {
            account: None,
            bucket: Some(store.bucket),
            some_bucket: None,
            path_bucket: None,
            file: None,
            source: None,
            name: None,
            prefix: Some(b"logs/2026/"),
        },
    };
    call_rule(&store.known, asker, &asked)?;
    name_rule(&store.known, asker, &asked)
}

/// 1 where the policy allows the call of this turn: its token and its key are found, and its rules are judged.
pub fn allowed(store: &Store, turn: u64) -> u64 {
    let Some(text) = text_at(store, turn) else {
        return 0;
    };
    match judge(store, &asker(store, text)) {
        Ok(()) => 1,
        Err(_) => 0,
    }
}

/// 1 where the token and the key of this turn are found.
pub fn found(store: &Store, turn: u64) -> u64 {
    let Some(text) = text_at(store, turn) else {
        return 0;
    };
    match asker(store, text).key {
        Some(_) => 1,
        None => 0,
    }
}
