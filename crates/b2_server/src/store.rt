//! The store that is served until stores are kept on a disk.

ghost use Rattle.std.specs.Prelude.{◌≡◌, ℕ, List, [], max, true, IfOk, OnOk};
ghost use Rattle.outside_traits.specs.Lists.{words_ahead};
ghost use Rattle.b2_base.specs.Failure.{IfFault};
ghost use Rattle.b2_model.specs.State.{State};
ghost use Rattle.b2_model.specs.Plan.{no_serial};
ghost use Rattle.b2_model.specs.Run.{moment};
ghost use Rattle.b2_server.specs.Store.{fixed_store, opened_store, begun_at, account_terms, IsAt, IsGranted};

use auth_grants::{Grants, SerialEnd, Terms};
use b2_base::{BucketNum, KeyNum, Memory, Moment, Or, Settings, Text, VersionNum};
use b2_types::TokenKind;
use outside_traits::ListWords;
use sha2::{Digest, Sha256};
use std::alloc::Global;

/// How many milliseconds a day has.
const DAY: u64 = 86_400_000;

/// A store that was opened once. It has no buckets and no key but the master key, and gives it tokens.
#[derive(Drop)]
pub struct FirstStore {
    pub(crate) settings: Settings,
    /// The moment of the last step.
    moment: Moment,
    /// The day of the last pass, since 1970.
    pass_day: u64,
    tokens: Grants,
    /// The random words that are left.
    words: ListWords,
}

// The store's settings, made anew.
#[tactic(auto, unfolding(crate::specs::Store::fixed_store))]
fn fixed_settings(alloc: Global) -> Result<Settings, Memory>
    ensures { IfOk result (λ s. s ≡ fixed_store) }
{
    let account = Text::copy(alloc, "a1b2c3d4e5f6")?;
    let url = Text::copy(alloc, "http://127.0.0.1:8080")?;
    Ok(Settings {
        account,
        secret_hash: Sha256::digest("mastersecret01"),
        url,
        part_min: 10,
        last_version: 9_007_199_254_740_991,
        area_end: 72_057_594_037_927_936,
    })
}

// The later of two moments.
fn later_of(a: Moment, b: Moment) -> Moment
    ensures { result ≡ max a b }
{
    if a.get() < b.get() { b } else { a }
}

// What an account token of the master key is given for: it is good for a day.
fn account_terms(alloc: Global, t: Moment) -> Terms
    ensures { result ≡ account_terms t }
{
    Terms {
        kind: TokenKind::Account,
        key: KeyNum::new(0).unwrap(),
        bucket: BucketNum::new(0).unwrap(),
        file: VersionNum::new(0).unwrap(),
        prefix: Text::of(String::new(alloc)),
        end: Moment::from_reading(t.get() + DAY),
    }
}

impl FirstStore {
    /// The store that was just opened, with these random words.
    pub(crate) fn new(alloc: Global, words: ListWords) -> Result<FirstStore, Memory>
        ensures { IfOk result (λ s. IsAt s (opened_store fixed_store) (words_ahead words)) }
    {
        let settings = fixed_settings(alloc)?;
        Ok(FirstStore {
            settings,
            moment: Moment::new(0).unwrap(),
            pass_day: 0,
            tokens: Grants::new(alloc),
            words,
        })
    }

    // The moment of a step at this reading of the clock.
    fn moment_at(&self, reading: u64) -> Moment
        ensures { (M : State (List ℕ)) (words : List ℕ) → IsAt self.now M words
            → result ≡ moment M reading }
    {
        later_of(self.moment, Moment::from_reading(reading))
    }

    // Begins a step at this moment. The first step of a day forgets old tokens.
    fn begin_at(&mut self, t: Moment)
        ensures { (M : State (List ℕ)) (words : List ℕ) → IsAt self.old M words
            → IsAt self.new (begun_at M t) words }
    {
        self.moment = t;
        let day = t.get() / DAY;
        if day <= self.pass_day {
            return;
        }
        self.pass_day = day;
        self.tokens.sweep(t);
    }

    /// Begins a step at this reading of the clock, and answers its moment.
    pub(crate) fn begin(&mut self, reading: u64) -> Moment
        ensures moment { (M : State (List ℕ)) (words : List ℕ) → IsAt self.old M words
            → result ≡ moment M reading }
        ensures begun { (M : State (List ℕ)) (words : List ℕ) → IsAt self.old M words
            → IsAt self.new (begun_at M result) words }
    {
        let t = self.moment_at(reading);
        self.begin_at(t);
        t
    }

    /// Gives the master key a token at the moment of the step, and answers its text.
    pub(crate) fn new_token(&mut self, alloc: Global, t: Moment) -> Result<Text, Or<SerialEnd>>
        ensures given { IfOk result (λ text. (M : State (List ℕ)) (words : List ℕ)
            → IsAt self.old M words → IsGranted t M words text self.new) }
        ensures settings { OnOk result (self.new.settings ≡ self.old.settings) }
        ensures end { IfFault result (λ _. (M : State (List ℕ)) (words : List ℕ)
            → IsAt self.old M words → (no_serial M).fails ≡ true) }
        ensures unchanged { IfFault result (λ _. self.new ≡ self.old) }
    {
        let terms = account_terms(alloc, t);
        match self.tokens.grant(alloc, 1, terms, &mut self.words) {
            Ok(text) => Ok(text),
            Err(Or::Memory) => Err(Or::Memory),
            Err(Or::Fault(SerialEnd)) => Err(Or::Fault(SerialEnd)),
        }
    }
}
