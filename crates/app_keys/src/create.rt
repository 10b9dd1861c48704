//! Making a key.

ghost use Rattle.std.specs.Prelude.{◌≡◌, ◌*◌, [], ℕ, List as TheList, Some, None, not, IfOk, unwrap_or, option_map};
ghost use Rattle.std.specs.Option.{option_copied};
ghost use Rattle.b2_base.specs.declared.extent.Extent.{Extent as TheExtent};
ghost use Rattle.b2_base.specs.Failure.{IfFault, UnlessFault};
ghost use Rattle.b2_types.specs.Fault.{plain};
ghost use Rattle.b2_model.specs.Checks.{first_fault, some_and};
ghost use Rattle.b2_model.specs.Kinds.{later};
ghost use Rattle.b2_model.specs.State.{State};
ghost use Rattle.b2_model.specs.AskKeys.{create_key, is_unlimited_cap, lies_in};
ghost use Rattle.app_keys.specs.Keys.{AreDrawn, IsMade, IsCreated, kind_of};

use crate::refusal::KeyRefusal;
use crate::secret::secret_text;
use b2_base::{BucketNum, KeyNum, List, Memory, Moment, Or, Text};
use b2_types::{CreateKey, Key};
use outside_traits::Words;
use rule_table::{Cap, CapSet, every_cap};
use sha2::{Digest, Sha256};
use std::alloc::Global;

/// A key that is made, with its secret, of which the key itself keeps the SHA-256 alone.
#[derive(Drop)]
pub struct NewKey {
    pub key: Key,
    pub secret: Text,
}

fn lies_in(caps: &CapSet, of: &CapSet) -> bool
    ensures { result ≡ lies_in caps.now of.now }
{
    let every = every_cap();
    every.iter().all(|cap| !caps.has(*cap) | of.has(*cap))
}

// Whether one of the capabilities is none for a key with buckets.
fn is_unlimited_cap(caps: &CapSet) -> bool
    ensures { result ≡ is_unlimited_cap caps.now }
{
    caps.has(Cap::ListKeys)
        | caps.has(Cap::WriteKeys)
        | caps.has(Cap::DeleteKeys)
        | caps.has(Cap::WriteBuckets)
        | caps.has(Cap::DeleteBuckets)
}

fn lacks(maker: Option<&Key>, caps: &CapSet) -> bool
    ensures { result ≡ some_and (λ k. not (lies_in caps.now k.caps)) (option_copied maker.entry) }
{
    match maker {
        Some(maker) => !lies_in(caps, &maker.caps),
        None => false,
    }
}

fn buckets_of(call: &CreateKey) -> &[BucketNum]
    ensures { result.now ≡ unwrap_or call.now.buckets [] }
{
    match &call.buckets {
        Some(buckets) => buckets.get(),
        None => &[],
    }
}

// The first rule that keeps the key from being made.
fn refusal(maker: Option<&Key>, next: KeyNum, call: &CreateKey) -> Option<KeyRefusal>
    ensures { (M : State TheExtent) (t : ℕ) (words : TheList ℕ) → M.next_key ≡ next
        → first_fault (create_key M (option_copied maker.entry) t words call.now).own
        ≡ option_map (λ r. plain (kind_of r)) result }
{
    if lacks(maker, &call.caps) {
        return Some(KeyRefusal::KeyCaps);
    }
    let is_limited = !buckets_of(call).is_empty() & is_unlimited_cap(&call.caps);
    if is_limited {
        return Some(KeyRefusal::KeyLimit);
    }
    if next.get() == u32::MAX {
        return Some(KeyRefusal::Cap);
    }
    None
}

fn end_of(t: Moment, duration: Option<u64>) -> Option<Moment>
    ensures { result ≡ option_map (λ seconds. later t (seconds * 1000)) duration }
{
    match duration {
        Some(seconds) => {
            let milliseconds = seconds.saturating_mul(1000);
            Some(Moment::from_reading(t.get().saturating_add(milliseconds)))
        }
        None => None,
    }
}

fn prefix_of(call: &CreateKey) -> &str
    ensures { result.now ≡ unwrap_or call.now.prefix [] }
{
    match &call.prefix {
        Some(prefix) => prefix.get(),
        None => "",
    }
}

fn four_words<W: Words>(luck: &mut W) -> [u64; 4]
    ensures { AreDrawn (W.ahead luck.old) result (W.ahead luck.new) }
{
    let first = luck.next();
    let second = luck.next();
    let third = luck.next();
    let fourth = luck.next();
    [first, second, third, fourth]
}

fn make(
    alloc: Global,
    next: KeyNum,
    t: Moment,
    call: &CreateKey,
    words: [u64; 4],
) -> Result<NewKey, Memory>
    ensures { IfOk result (λ made. IsMade next t call.now words made) }
{
    let secret = secret_text(alloc, words)?;
    let buckets = buckets_of(call).to_vec(alloc)?;
    let key = Key {
        num: next,
        name: Text::copy(alloc, call.name.get())?,
        caps: call.caps,
        buckets: List::of(buckets),
        prefix: Text::copy(alloc, prefix_of(call))?,
        end: end_of(t, call.duration),
        hash: Sha256::digest(secret.get().as_bytes()),
    };
    Ok(NewKey { key, secret })
}

/// Makes the key of the next number, with a secret of the next four words.
pub fn keys_create<W: Words>(
    alloc: Global,
    maker: Option<&Key>,
    next: KeyNum,
    t: Moment,
    call: &CreateKey,
    luck: &mut W,
) -> Result<NewKey, Or<KeyRefusal>>
    ensures refused { IfFault result (λ r. (M : State TheExtent) (words : TheList ℕ)
        → M.next_key ≡ next
        → first_fault (create_key M (option_copied maker.entry) t words call.now).own
        ≡ Some (plain (kind_of r))) }
    ensures passed { UnlessFault result ((M : State TheExtent) (words : TheList ℕ)
        → M.next_key ≡ next
        → first_fault (create_key M (option_copied maker.entry) t words call.now).own ≡ None) }
    ensures undrawn { IfFault result (λ _. luck.new ≡ luck.old) }
    ensures made { IfOk result
        (λ made. IsCreated (W.ahead luck.old) (W.ahead luck.new) next t call.now made) }
{
    if let Some(refusal) = refusal(maker, next, call) {
        return Err(Or::Fault(refusal));
    }
    let words = four_words(luck);
    let made = make(alloc, next, t, call, words)?;
    Ok(made)
}
