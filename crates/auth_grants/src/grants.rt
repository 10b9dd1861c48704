//! The tokens that a server gave.

ghost use Rattle.std.specs.Prelude.{◌≡◌, Some, None, IfOk, IfErr, OnOk, OnErr, IsSome, ◌↔◌, true, false};
ghost use Rattle.std.specs.Option.{option_copied};
ghost use Rattle.b2_base.specs.declared.extent.Extent.{Extent as TheExtent};
ghost use Rattle.b2_base.specs.Failure.{IfFault, UnlessFault};
ghost use Rattle.b2_model.specs.State.{State};
ghost use Rattle.b2_model.specs.LiveGrant.{grant_at};
ghost use Rattle.b2_model.specs.Pass.{without_old_grants};
ghost use Rattle.b2_model.specs.Plan.{no_serial};
ghost use Rattle.auth_grants.specs.Tokens.{no_tokens, grants_of, held_in, flight_at, with_flight, tokens_of, new_held, IsGiven};

use crate::held::Held;
use crate::text::token_text;
use crate::tree::{forget, held_under, set_flight};
use b2_base::{BucketNum, ConnNum, KeyNum, Moment, Or, Text, VersionNum};
use b2_types::{Grant, TokenKind};
use outside_traits::Words;
use std::alloc::Global;
use std::collections::BTreeMap;
use std::marker::Model;

/// The last serial was given.
#[derive(Clone, Copy, Debug, PartialEq, Eq)]
pub struct SerialEnd;

/// An upload is under way on the token, on this connection.
#[derive(Clone, Copy, Debug, PartialEq, Eq)]
pub struct Busy(pub ConnNum);

/// What a token is given for.
#[derive(Drop)]
pub struct Terms {
    pub kind: TokenKind,
    pub key: KeyNum,
    /// The bucket of an upload URL, a part URL or a download token; else 0.
    pub bucket: BucketNum,
    /// The file of a part URL, else 0.
    pub file: VersionNum,
    /// The prefix of a download token, else empty.
    pub prefix: Text,
    pub end: Moment,
}

/// The tokens that a server gave since it was opened, in the order in which it gave them. The serial that
/// stands in a token's text is where the token is found.
#[derive(Drop)]
pub struct Grants {
    /// How many were given.
    serial: u64,
    held: BTreeMap<u64, Held>,
}

impl Model for Grants {
    ghost use Rattle.std.specs.Map.{values_of};
    ghost use Rattle.auth_grants.specs.Tokens.{Tokens, tokens, AreGiven};

    ghost Value = { Tokens };

    ghost view = { λ g. tokens g.serial (values_of g.held.entries) };

    ghost invariant = { λ g. AreGiven g.serial g.held.entries };
}

impl Grants {
    /// No tokens.
    pub fn new(alloc: Global) -> Grants
        ensures { result ≡ no_tokens }
    {
        Grants {
            serial: 0,
            held: BTreeMap::new(alloc),
        }
    }

    /// Gives a token for these terms, under the next serial since this boot, and answers its text.
    pub fn grant<W: Words>(
        &mut self,
        alloc: Global,
        boot: u32,
        terms: Terms,
        luck: &mut W,
    ) -> Result<Text, Or<SerialEnd>>
        ensures given { IfOk result (λ text.
            IsGiven boot terms self.old self.new (W.ahead luck.old) (W.ahead luck.new) text) }
        ensures end { IfFault result (λ _. (M : State TheExtent) → M.serial ≡ self.old.serial
            → (no_serial M).fails ≡ true) }
        ensures left { UnlessFault result ((M : State TheExtent) → M.serial ≡ self.old.serial
            → (no_serial M).fails ≡ false) }
        ensures undrawn { IfFault result (λ _. luck.new ≡ luck.old) }
        ensures unchanged { OnErr result (self.new ≡ self.old) }
    {
        if self.serial == u64::MAX {
            return Err(Or::Fault(SerialEnd));
        }
        let serial = self.serial + 1;
        let first = luck.next();
        let second = luck.next();
        let text = token_text(alloc, boot, serial, first, second)?;
        let told = Text::copy(alloc, text.get())?;
        self.held.insert(serial, held_for(text, terms))?;
        self.serial = serial;
        Ok(told)
    }

    /// The grant of the token of this text.
    pub fn find(&self, text: &[u8]) -> Option<&Grant>
        ensures grant { (M : State TheExtent) → M.grants ≡ grants_of self.now.held
            → option_copied result ≡ grant_at M text.now }
        ensures there { IsSome result ↔ IsSome (held_in self.now.held text.now) }
    {
        match held_under(&self.held, text) {
            Some(held) => Some(&held.grant),
            None => None,
        }
    }

    /// The connection of the upload that is under way on the token.
    pub fn flight(&self, text: &[u8]) -> Option<ConnNum>
        ensures { result ≡ flight_at self.now text.now }
    {
        match held_under(&self.held, text) {
            Some(held) => held.flight,
            None => None,
        }
    }

    /// An upload on this connection begins on the token.
    pub fn occupy(&mut self, text: &[u8], conn: ConnNum) -> Result<(), Busy>
        requires { IsSome (held_in self.old.held text.now) }
        ensures busy { IfErr result (λ b. flight_at self.old text.now ≡ Some b.0) }
        ensures unchanged { OnErr result (self.new ≡ self.old) }
        ensures free { OnOk result (flight_at self.old text.now ≡ None) }
        ensures taken { OnOk result (self.new ≡ with_flight text.now (Some conn) self.old) }
    {
        if let Some(flight) = self.flight(text) {
            return Err(Busy(flight));
        }
        set_flight(&mut self.held, text, Some(conn));
        Ok(())
    }

    /// The upload on the token ends or is lost.
    pub fn vacate(&mut self, text: &[u8])
        ensures { self.new ≡ with_flight text.now None self.old }
    {
        set_flight(&mut self.held, text, None);
    }

    /// Forgets the tokens that ended a day ago or more, but those of uploads under way.
    pub fn sweep(&mut self, t: Moment)
        ensures { (M : State TheExtent) → self.old ≡ tokens_of M
            → self.new ≡ tokens_of (without_old_grants t M) }
    {
        forget(&mut self.held, t);
    }
}

fn held_for(text: Text, terms: Terms) -> Held
    ensures { result ≡ new_held text terms }
{
    Held {
        grant: Grant {
            text,
            kind: terms.kind,
            key: terms.key,
            bucket: terms.bucket,
            file: terms.file,
            prefix: terms.prefix,
            end: terms.end,
        },
        flight: None,
    }
}
