//! Uploads that begin, end or are lost.

ghost use Rattle.std.specs.Prelude.{◌≡◌, ◌≤◌, Some, None, IfOk, IsSome};
ghost use Rattle.std.specs.Option.{option_copied};
ghost use Rattle.b2_model.specs.Ask.{at_moment};
ghost use Rattle.b2_model.specs.Checks.{first_fault};
ghost use Rattle.b2_model.specs.LiveGrant.{grant_at};
ghost use Rattle.b2_model.specs.Lists.{put_by};
ghost use Rattle.b2_model.specs.UploadSteps.{begin_refusals, flight_of, new_flight, without_flight};
ghost use Rattle.auth_grants.specs.Tokens.{flight_at, held_in, with_flight};
ghost use Rattle.core_state.specs.Uploads.{left_by};

use crate::state::Core;
use auth_grants::Grants;
use b2_base::{ConnNum, Memory, Moment, Text};
use b2_types::{Flight, UploadCall};
use std::alloc::Global;

// The text of a token that stands.
fn text_of(alloc: Global, core: &Core, token: &[u8]) -> Result<Text, Memory>
    requires stands { IsSome (grant_at core.now token.now) }
    ensures { IfOk result (λ text. text ≡ token.now) }
{
    match core.grant(token) {
        Some(grant) => Text::copy(alloc, grant.text.get()),
        None => unreachable!(),
    }
}

// The upload on this connection takes a token that stands and is free.
fn take(tokens: &mut Grants, token: &[u8], conn: ConnNum)
    requires stands { IsSome (held_in tokens.old.held token.now) }
    requires free { flight_at tokens.old token.now ≡ None }
    ensures { tokens.new ≡ with_flight token.now (Some conn) tokens.old }
{
    match tokens.occupy(token, conn) {
        Ok(()) => {}
        Err(_) => unreachable!(),
    }
}

// The upload leaves its token, where there is an upload.
fn leave(tokens: &mut Grants, flight: Option<&Flight>)
    ensures { tokens.new ≡ left_by (option_copied flight.entry) tokens.old }
{
    if let Some(flight) = flight {
        tokens.vacate(flight.token.get().as_bytes());
    }
}

impl Core {
    /// The state at a later moment.
    pub fn with_moment(mut self, t: Moment) -> Core
        requires later { self.kept ≤ t }
        ensures { result ≡ at_moment self t }
    {
        self.parts.now = t;
        self
    }

    /// The state with the upload under way on the connection, where no rule refuses its begin with
    /// the token of this text.
    pub fn occupy(
        self,
        alloc: Global,
        t: Moment,
        conn: ConnNum,
        token: &[u8],
        upload: UploadCall,
    ) -> Result<Core, Memory>
        requires later { self.kept ≤ t }
        requires free { flight_of self conn ≡ None }
        requires passes { first_fault (begin_refusals self t (Some token.now) upload) ≡ None }
        ensures { IfOk result (λ core. core ≡ record (at_moment self t) {
          flights = put_by (λ f. f.conn) (new_flight conn (Some token.now) upload) self.flights;
        }) }
    {
        let text = text_of(alloc, &self, token)?;
        let mut parts = self.parts;
        take(&mut parts.tokens, token, conn);
        parts.flights.put(Flight {
            conn,
            token: text,
            upload,
        })?;
        parts.now = t;
        Ok(Core { parts })
    }

    /// The state without the upload on the connection, which ends or is lost; its token is free.
    pub fn vacate(self, t: Moment, conn: ConnNum) -> Core
        requires later { self.kept ≤ t }
        ensures { result ≡ without_flight self t conn }
    {
        let mut parts = self.parts;
        let flight = parts.flights.remove(conn.get());
        leave(&mut parts.tokens, flight.as_ref());
        parts.now = t;
        Core { parts }
    }
}
