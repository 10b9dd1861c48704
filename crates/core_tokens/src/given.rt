//! What calls that give a token have in common.

ghost use Rattle.std.specs.Prelude.{◌≡◌, ◌≤◌};
ghost use Rattle.rule_table.specs.declared.fault.FaultKind.TheVariants.{Cap};
ghost use Rattle.b2_types.specs.declared.answer.AnswerOf.TheVariants as answer;
ghost use Rattle.b2_types.specs.Fault.{plain};
ghost use Rattle.b2_model.specs.Ask.{at_moment};
ghost use Rattle.b2_model.specs.Plan.{key_num};
ghost use Rattle.policy_rules.specs.Asked.{caller};
ghost use Rattle.core_tokens.specs.Giving.{day_terms};

use auth_grants::Terms;
use b2_base::{BucketNum, KeyNum, Moment, Text, VersionNum};
use b2_types::{Answer, AnswerOf, Fault, TokenKind};
use core_state::Core;
use policy_rules::Asker;
use rule_table::FaultKind;
use std::alloc::Global;

/// How many milliseconds a day has.
const DAY: u64 = 86_400_000;

/// The number of the key that asks.
pub(crate) fn key_num(asker: &Asker<'_>) -> KeyNum
    ensures { result ≡ key_num (caller asker.now).key }
{
    match asker.key {
        Some(key) => key.num,
        None => KeyNum::new(0).unwrap(),
    }
}

/// What a token is given for that is good for a day.
pub(crate) fn day_terms(
    alloc: Global,
    t: Moment,
    kind: TokenKind,
    key: KeyNum,
    bucket: BucketNum,
    file: VersionNum,
) -> Terms
    ensures { result ≡ day_terms t kind key bucket file }
{
    Terms {
        kind,
        key,
        bucket,
        file,
        prefix: Text::of(String::new(alloc)),
        end: Moment::from_reading(t.get() + DAY),
    }
}

/// The refusal of a call, at the moment.
pub(crate) fn refused(core: Core, t: Moment, fault: Fault) -> (Core, Answer)
    requires { core.now ≤ t }
    ensures state { result.0 ≡ at_moment core t }
    ensures answer { result.1 ≡ answer.Refused fault }
{
    (core.at_moment(t), AnswerOf::Refused(fault))
}

/// The refusal where the last serial was given.
pub(crate) fn no_serial() -> Answer
    ensures { result ≡ answer.Refused (plain Cap) }
{
    AnswerOf::Refused(Fault::plain(FaultKind::Cap))
}
