//! What an authorize call comes to.

ghost use Rattle.std.specs.Prelude.{◌≡◌, ◌↔◌, ℕ, List, IsTrue, IfOk};
ghost use Rattle.sha2.specs.Sha256.{sha256};
ghost use Rattle.b2_base.specs.Failure.{IfFault};
ghost use Rattle.b2_types.specs.declared.answer.AnswerOf.TheVariants as answer;
ghost use Rattle.b2_types.specs.declared.call.Call.TheVariants.{AuthorizeAccount};
ghost use Rattle.b2_types.specs.declared.shown.Shown.TheVariants as shown;
ghost use Rattle.b2_model.specs.Run.{Progress};
ghost use Rattle.b2_server.specs.Answer.{Tells};
ghost use Rattle.b2_server.specs.Store.{IsAt, master_account};

use crate::store::FirstStore;
use app_keys::has_hash;
use auth_grants::SerialEnd;
use b2_base::{List, Memory, Or, Settings, Text};
use b2_types::{ApiVersion, Authorize, Credentials, Fault, ShownAccount};
use rule_table::{CapSet, FaultKind};
use std::alloc::Global;

// Whether these are the master key's id and secret.
fn is_master(settings: &Settings, credentials: &Credentials) -> bool
    ensures { IsTrue result ↔ ((credentials.now.id ≡ settings.now.account)
        × (sha256 credentials.now.secret ≡ settings.now.secret_hash)) }
{
    credentials.id.get() == settings.account.get()
        && has_hash(&settings.secret_hash, credentials.secret.get().as_bytes())
}

// What the master key is shown with its token.
fn account(
    alloc: Global,
    version: ApiVersion,
    settings: &Settings,
    token: Text,
) -> Result<ShownAccount, Memory>
    ensures { IfOk result (λ a. a ≡ master_account version settings.now token) }
{
    Ok(ShownAccount {
        version,
        account: Text::copy(alloc, settings.account.get())?,
        token,
        url: Text::copy(alloc, settings.url.get())?,
        part_min: settings.part_min,
        caps: CapSet::all(),
        buckets: List::of(Vec::new(alloc)),
        prefix: Text::of(String::new(alloc)),
        end: None,
    })
}

impl FirstStore {
    /// The account that the call gives a token for, at this reading of the clock. After `Memory` the
    /// store is not used again.
    pub(crate) fn authorize(
        &mut self,
        alloc: Global,
        reading: u64,
        call: &Authorize,
    ) -> Result<ShownAccount, Or<Fault>>
        ensures given { IfOk result (λ a. (P : Progress (List ℕ)) → IsAt self.old P.state P.words
            → Tells self.new P reading (AuthorizeAccount call.now)
            (answer.Json (shown.Account a))) }
        ensures refused { IfFault result (λ f. (P : Progress (List ℕ))
            → IsAt self.old P.state P.words
            → Tells self.new P reading (AuthorizeAccount call.now) (answer.Refused f)) }
    {
        let t = self.begin(reading);
        let Some(credentials) = &call.credentials else {
            return Err(Or::Fault(Fault::plain(FaultKind::P1)));
        };
        if !is_master(&self.settings, credentials) {
            return Err(Or::Fault(Fault::plain(FaultKind::P2)));
        }
        let token = match self.new_token(alloc, t) {
            Ok(token) => token,
            Err(Or::Memory) => return Err(Or::Memory),
            Err(Or::Fault(SerialEnd)) => return Err(Or::Fault(Fault::plain(FaultKind::Cap))),
        };
        let account = account(alloc, call.version, &self.settings, token)?;
        Ok(account)
    }
}
