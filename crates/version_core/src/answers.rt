//! A call is answered, and the state is the one after it.

ghost use Rattle.std.specs.Prelude.{◌≡◌, ◌≤◌, true, IfOk};
ghost use Rattle.std.specs.Option.{option_copied};
ghost use Rattle.b2_model.specs.Changes.{after_record};
ghost use Rattle.b2_model.specs.Stored.{applies_change};
ghost use Rattle.sound_states.specs.Sound.{IsFitChange};
ghost use Rattle.sound_steps.specs.FitSteps.{IsFitCall};
ghost use Rattle.core_decisions.specs.Decided.{IsAnswer, IsNoCopy};

use crate::decisions::decide;
use b2_base::{Memory, Moment};
use b2_types::{Answer, Call, Record};
use core_decisions::Decision;
use core_records::{Applied, apply};
use core_state::Core;
use outside_traits::Words;
use std::alloc::Global;

// The state after a record that applies.
fn after_writing(alloc: Global, core: Core, written: Record) -> Result<Core, Memory>
    requires fit { IsFitChange written.change }
    requires applies { applies_change core written.change ≡ true }
    ensures { IfOk result (λ next. next ≡ after_record core written) }
{
    match apply(alloc, core, written)? {
        Applied::Done(core, _) => Ok(core),
        Applied::CannotApply(_) => unreachable!(),
    }
}

/// Answers a call that copies nothing, and gives the state after it. What its record gives up is
/// not told: no content is looked after here. After `Memory` the state is gone.
pub fn ask<W: Words>(
    alloc: Global,
    core: Core,
    t: Moment,
    luck: &mut W,
    token: Option<&[u8]>,
    call: &Call,
) -> Result<(Core, Answer), Memory>
    requires later { core.now ≤ t }
    requires alone { IsNoCopy call.now }
    requires fit { IsFitCall call.now }
    ensures { IfOk result (λ r. IsAnswer core t (option_copied token.entry) call.now
        (W.ahead luck.old) (W.ahead luck.new) r.0 r.1) }
{
    core.is_sound();
    let (core, decision) = decide(alloc, core, t, luck, token, call)?;
    match decision {
        Decision::Reply(answer) => Ok((core, answer)),
        Decision::Write(written, answer) => {
            let core = after_writing(alloc, core, written)?;
            Ok((core, answer))
        }
    }
}
