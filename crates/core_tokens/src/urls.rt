//! The calls that give tokens to upload files and parts, and to download.

ghost use Rattle.std.specs.Prelude.{◌≡◌, ◌≤◌, ◌++◌, ◌*◌, Some, IfErr, IfOk, codes};
ghost use Rattle.std.specs.Option.{option_copied};
ghost use Rattle.b2_base.specs.BucketId.{bucket_id};
ghost use Rattle.b2_base.specs.FileId.{file_id};
ghost use Rattle.b2_types.specs.declared.answer.AnswerOf.TheVariants as answer;
ghost use Rattle.b2_types.specs.declared.call.Call.TheVariants as calls;
ghost use Rattle.b2_model.specs.Kinds.{is_start, later};
ghost use Rattle.core_state.specs.GivenTokens.{MayHave};
ghost use Rattle.core_decisions.specs.declared.decision.Decision.TheVariants as decision;
ghost use Rattle.core_decisions.specs.Decided.{IsAnswer, IsDecision};
ghost use Rattle.core_tokens.specs.Giving.{IsGiving};
ghost use Rattle.core_tokens.specs.ShownTokens.{shows_download, shows_part, shows_upload};

use crate::given::{day_terms, key_num, no_serial, refused};
use auth_grants::Terms;
use b2_base::{BucketId, BucketNum, FileId, Memory, Moment, Settings, Text, VersionNum};
use b2_types::{
    Action, Answer, AnswerOf, AuthorizeDownload, Fault, FileCall, GetUploadUrl, Shown,
    ShownDownloadToken, ShownPartUrl, ShownUploadUrl, TokenKind, Version, VersionId,
};
use core_policy::{asker_of, bucket_for, file_for, prefix_for};
use core_state::Core;
use outside_traits::Words;
use rule_table::{CallName, FaultKind};
use std::alloc::Global;

// What the token of an upload URL is given for, or the first refusal.
fn upload_terms(
    alloc: Global,
    core: &Core,
    t: Moment,
    token: Option<&[u8]>,
    call: &GetUploadUrl,
) -> Result<Terms, Fault>
    ensures refused { IfErr result (λ f. IsDecision core.now t (option_copied token.entry)
        (calls.GetUploadUrl call.now) (decision.Reply (answer.Refused f))) }
    ensures giving { IfOk result (λ terms. IsGiving core.now t (option_copied token.entry)
        (calls.GetUploadUrl call.now) terms (shows_upload core.now call.now.bucket)) }
    ensures may { IfOk result (MayHave core.now) }
{
    core.is_sound();
    let asker = asker_of(core, token);
    let name = CallName::GetUploadUrl;
    let bucket = match bucket_for(core, &asker, t, name, call.bucket) {
        Ok(bucket) => bucket,
        Err(kind) => return Err(Fault::plain(kind)),
    };
    let key = key_num(&asker);
    let file = VersionNum::new(0).unwrap();
    Ok(day_terms(alloc, t, TokenKind::UploadUrl, key, bucket.num, file))
}

// The URL of what has the id behind this path.
fn url_at(alloc: Global, front: &str, path: &str, id: &str) -> Result<Text, Memory>
    ensures { IfOk result (λ url. url ≡ front.now ++ path.now ++ id.now) }
{
    let url = format!(in alloc; "{front}{path}{id}")?;
    Ok(Text::of(url))
}

// The URL for uploads to a bucket.
fn upload_url(alloc: Global, settings: &Settings, bucket: BucketNum) -> Result<Text, Memory>
    ensures { IfOk result (λ url. url
        ≡ settings.now.url ++ codes "/b2api/v3/b2_upload_file/" ++ bucket_id bucket) }
{
    let id = BucketId::write(alloc, bucket)?;
    let path = "/b2api/v3/b2_upload_file/";
    url_at(alloc, settings.url.get(), path, id.get())
}

/// Gives a token to upload files to a bucket.
pub fn get_upload_url<W: Words>(
    alloc: Global,
    core: Core,
    t: Moment,
    token: Option<&[u8]>,
    call: &GetUploadUrl,
    luck: &mut W,
) -> Result<(Core, Answer), Memory>
    requires { core.now ≤ t }
    ensures { IfOk result (λ r. IsAnswer core t (option_copied token.entry)
        (calls.GetUploadUrl call.now) (W.ahead luck.old) (W.ahead luck.new) r.0 r.1) }
{
    let terms = match upload_terms(alloc, &core, t, token, call) {
        Ok(terms) => terms,
        Err(fault) => return Ok(refused(core, t, fault)),
    };
    let (core, given) = core.give_token(alloc, t, terms, luck)?;
    let Some(text) = given else {
        return Ok((core, no_serial()));
    };
    let url = upload_url(alloc, core.settings(), call.bucket)?;
    let shown = ShownUploadUrl {
        bucket: call.bucket,
        token: text,
        url,
    };
    Ok((core, AnswerOf::Json(Shown::UploadUrl(shown))))
}

// Whether the version is a large file that was started and is not finished.
fn is_start(version: &Version) -> bool
    ensures { result ≡ is_start version.now.action }
{
    matches!(version.action, Action::Start)
}

// What the token of a part URL is given for, or the first refusal.
fn part_terms(
    alloc: Global,
    core: &Core,
    t: Moment,
    token: Option<&[u8]>,
    call: &FileCall,
) -> Result<Terms, Fault>
    ensures refused { IfErr result (λ f. IsDecision core.now t (option_copied token.entry)
        (calls.GetUploadPartUrl call.now) (decision.Reply (answer.Refused f))) }
    ensures giving { IfOk result (λ terms. IsGiving core.now t (option_copied token.entry)
        (calls.GetUploadPartUrl call.now) terms
        (shows_part core.now call.now.bucket call.now.file)) }
    ensures may { IfOk result (MayHave core.now) }
{
    core.is_sound();
    let asker = asker_of(core, token);
    let name = CallName::GetUploadPartUrl;
    let version = match file_for(core, &asker, t, name, call.bucket, call.file) {
        Ok(version) => version,
        Err(kind) => return Err(Fault::plain(kind)),
    };
    if !is_start(version) {
        return Err(Fault::plain(FaultKind::NotLarge));
    }
    let key = key_num(&asker);
    Ok(day_terms(
        alloc,
        t,
        TokenKind::PartUrl,
        key,
        version.bucket,
        version.num,
    ))
}

// The URL for uploads of parts of a file.
fn part_url(
    alloc: Global,
    settings: &Settings,
    bucket: BucketNum,
    file: VersionNum,
) -> Result<Text, Memory>
    ensures { IfOk result (λ url. url
        ≡ settings.now.url ++ codes "/b2api/v3/b2_upload_part/" ++ file_id bucket file) }
{
    let id = FileId::write(alloc, bucket, file)?;
    let path = "/b2api/v3/b2_upload_part/";
    url_at(alloc, settings.url.get(), path, id.get())
}

/// Gives a token to upload parts of a large file that was started.
pub fn get_upload_part_url<W: Words>(
    alloc: Global,
    core: Core,
    t: Moment,
    token: Option<&[u8]>,
    call: &FileCall,
    luck: &mut W,
) -> Result<(Core, Answer), Memory>
    requires { core.now ≤ t }
    ensures { IfOk result (λ r. IsAnswer core t (option_copied token.entry)
        (calls.GetUploadPartUrl call.now) (W.ahead luck.old) (W.ahead luck.new) r.0 r.1) }
{
    let terms = match part_terms(alloc, &core, t, token, call) {
        Ok(terms) => terms,
        Err(fault) => return Ok(refused(core, t, fault)),
    };
    let (core, given) = core.give_token(alloc, t, terms, luck)?;
    let Some(text) = given else {
        return Ok((core, no_serial()));
    };
    let url = part_url(alloc, core.settings(), call.bucket, call.file)?;
    let shown = ShownPartUrl {
        file: VersionId {
            bucket: call.bucket,
            num: call.file,
        },
        token: text,
        url,
    };
    Ok((core, AnswerOf::Json(Shown::PartUrl(shown))))
}

// What a download token of this prefix is given for, or the first refusal.
fn download_terms(
    core: &Core,
    t: Moment,
    token: Option<&[u8]>,
    call: &AuthorizeDownload,
    prefix: Text,
) -> Result<Terms, Fault>
    requires { prefix ≡ call.now.prefix }
    ensures refused { IfErr result (λ f. IsDecision core.now t (option_copied token.entry)
        (calls.GetDownloadAuthorization call.now) (decision.Reply (answer.Refused f))) }
    ensures giving { IfOk result (λ terms. IsGiving core.now t (option_copied token.entry)
        (calls.GetDownloadAuthorization call.now) terms
        (shows_download call.now.bucket call.now.prefix)) }
    ensures may { IfOk result (MayHave core.now) }
{
    core.is_sound();
    let asker = asker_of(core, token);
    let name = CallName::GetDownloadAuthorization;
    let own = Some(&call.prefix);
    if let Err(kind) = prefix_for(core, &asker, t, name, call.bucket, own) {
        return Err(Fault::plain(kind));
    }
    Ok(Terms {
        kind: TokenKind::Download,
        key: key_num(&asker),
        bucket: call.bucket,
        file: VersionNum::new(0).unwrap(),
        prefix,
        end: end_of(t, call.duration),
    })
}

// The moment so many seconds later.
fn end_of(t: Moment, seconds: u64) -> Moment
    ensures { result ≡ later t (seconds * 1000) }
{
    let milliseconds = seconds.saturating_mul(1000);
    Moment::from_reading(t.get().saturating_add(milliseconds))
}

/// Gives a token to download the names of a bucket that have a prefix.
pub fn get_download_authorization<W: Words>(
    alloc: Global,
    core: Core,
    t: Moment,
    token: Option<&[u8]>,
    call: &AuthorizeDownload,
    luck: &mut W,
) -> Result<(Core, Answer), Memory>
    requires { core.now ≤ t }
    ensures { IfOk result (λ r. IsAnswer core t (option_copied token.entry)
        (calls.GetDownloadAuthorization call.now) (W.ahead luck.old) (W.ahead luck.new) r.0 r.1) }
{
    let prefix = Text::copy(alloc, call.prefix.get())?;
    let shown_prefix = Text::copy(alloc, call.prefix.get())?;
    let terms = match download_terms(&core, t, token, call, prefix) {
        Ok(terms) => terms,
        Err(fault) => return Ok(refused(core, t, fault)),
    };
    let (core, given) = core.give_token(alloc, t, terms, luck)?;
    let Some(text) = given else {
        return Ok((core, no_serial()));
    };
    let shown = ShownDownloadToken {
        bucket: call.bucket,
        prefix: shown_prefix,
        token: text,
    };
    Ok((core, AnswerOf::Json(Shown::DownloadToken(shown))))
}
