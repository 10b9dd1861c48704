//! What a call comes to.

ghost use Rattle.std.specs.Prelude.{◌≤◌, IfOk};
ghost use Rattle.std.specs.Option.{option_copied};
ghost use Rattle.core_decisions.specs.Decided.{IsNoCopy};
ghost use Rattle.version_core.specs.Decided.{IsDecided};

use crate::quiet::decide_quietly;
use b2_base::{Memory, Moment};
use b2_types::Call;
use core_decisions::Decision;
use core_keys::create_key;
use core_state::Core;
use core_tokens::{authorize, get_download_authorization, get_upload_part_url, get_upload_url};
use outside_traits::Words;
use std::alloc::Global;

/// What a call comes to that copies nothing: the state at its moment, with the token that it gives,
/// and the answer, or the record that is to be written before it. After `Memory` the state is gone.
pub fn decide<W: Words>(
    alloc: Global,
    core: Core,
    t: Moment,
    luck: &mut W,
    token: Option<&[u8]>,
    call: &Call,
) -> Result<(Core, Decision), Memory>
    requires later { core.now ≤ t }
    requires alone { IsNoCopy call.now }
    ensures { IfOk result (λ r. IsDecided core t (option_copied token.entry) call.now
        (W.ahead luck.old) (W.ahead luck.new) r.0 r.1) }
{
    core.is_sound();
    match call {
        Call::AuthorizeAccount(call) => {
            let (core, answer) = authorize(alloc, core, t, call, luck)?;
            Ok((core, Decision::Reply(answer)))
        }
        Call::GetUploadUrl(call) => {
            let (core, answer) = get_upload_url(alloc, core, t, token, call, luck)?;
            Ok((core, Decision::Reply(answer)))
        }
        Call::GetUploadPartUrl(call) => {
            let (core, answer) = get_upload_part_url(alloc, core, t, token, call, luck)?;
            Ok((core, Decision::Reply(answer)))
        }
        Call::GetDownloadAuthorization(call) => {
            let (core, answer) = get_download_authorization(alloc, core, t, token, call, luck)?;
            Ok((core, Decision::Reply(answer)))
        }
        Call::CreateKey(call) => {
            let decision = create_key(alloc, &core, t, token, call, luck)?;
            Ok((core.with_moment(t), decision))
        }
        _ => {
            let decision = decide_quietly(alloc, &core, t, token, call)?;
            Ok((core.with_moment(t), decision))
        }
    }
}
