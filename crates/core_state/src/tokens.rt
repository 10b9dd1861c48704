//! Tokens that are given, and the moment of a step.

ghost use Rattle.std.specs.Prelude.{◌≡◌, ◌≤◌, IfOk};
ghost use Rattle.b2_model.specs.Ask.{at_moment};
ghost use Rattle.core_state.specs.GivenTokens.{GivesToken, MayHave};

use crate::state::Core;
use auth_grants::{SerialEnd, Terms};
use b2_base::{Memory, Moment, Or, Text};
use outside_traits::Words;
use std::alloc::Global;

impl Core {
    /// The state at a moment that is not before its own.
    pub fn at_moment(mut self, t: Moment) -> Core
        requires { self.now ≤ t }
        ensures { result ≡ at_moment self t }
    {
        self.parts.now = t;
        self
    }

    /// Gives a token for these terms, under the next serial and with two words, and answers its
    /// text: none where the last serial was given. Nothing that is stored changes.
    pub fn give_token<W: Words>(
        self,
        alloc: Global,
        t: Moment,
        terms: Terms,
        luck: &mut W,
    ) -> Result<(Core, Option<Text>), Memory>
        requires later { self.now ≤ t }
        requires may { MayHave self terms }
        ensures { IfOk result (λ given. GivesToken self t terms (W.ahead luck.old)
            (W.ahead luck.new) given.0 given.1) }
    {
        let mut parts = self.parts;
        parts.now = t;
        let text = match parts.tokens.grant(alloc, parts.boot, terms, luck) {
            Ok(text) => text,
            Err(Or::Memory) => return Err(Memory),
            Err(Or::Fault(SerialEnd)) => return Ok((Core { parts }, None)),
        };
        Ok((Core { parts }, Some(text)))
    }
}
