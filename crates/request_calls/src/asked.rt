//! What a routed request asks for.

ghost use Rattle.std.specs.Prelude.{◌≡◌, IfOk};
ghost use Rattle.rule_table.specs.declared.call.CallName.{CallName as TheName};
ghost use Rattle.rule_table.specs.declared.call.CallName.TheVariants as names;
ghost use Rattle.call_paths.specs.Path.{IsPath};
ghost use Rattle.head_fields.specs.Downloads.{HasNamePath};
ghost use Rattle.request_calls.specs.Asked.{IsAuthorize, IsUploadTo, IsAsking};

use api_json::authorize_call;
use b2_base::{Memory, Text};
use b2_types::{ApiVersion, Call, Target, UploadCall};
use call_fields::read_call;
use call_paths::Route;
use head_fields::{download_by_id, download_by_name, download_token, token_of};
use rule_table::CallName;
use std::alloc::Global;
use upload_heads::{read_file_upload, read_part_upload};
use wire_forms::Request;

/// A call, or an upload that begins.
#[derive(Drop)]
pub enum Asked {
    Call(Call),
    Upload(UploadCall),
}

/// What a request asks for, and the token that it is made with.
#[derive(Drop)]
pub struct Asking {
    pub token: Option<Text>,
    pub asked: Asked,
}

fn with_call(token: Option<Text>, call: Call) -> Asking
    ensures { (result.token ≡ token) × (result.asked ≡ Asked.Call call) }
{
    Asking {
        token,
        asked: Asked::Call(call),
    }
}

fn authorize(alloc: Global, version: ApiVersion, request: &Request) -> Result<Call, Memory>
    ensures { IfOk result (λ c. IsAuthorize version request.now c) }
{
    let call = authorize_call(alloc, version, request)?;
    Ok(Call::AuthorizeAccount(call))
}

fn upload(alloc: Global, target: Target, request: &Request) -> Result<UploadCall, Memory>
    requires { target ≡ Target.Nothing → ⊥ }
    ensures { IfOk result (λ u. IsUploadTo target request.now u) }
{
    match target {
        Target::Bucket(bucket) => read_file_upload(alloc, bucket, request),
        Target::File(bucket, file) => read_part_upload(alloc, bucket, file, request),
        Target::Nothing => unreachable!(),
    }
}

/// What a request asks for on its route, with the token that it is made with. A call or an upload whose
/// form is amiss is bad with the first fault. Of an upload the head tells it, and its body is not looked
/// at.
pub fn read_asked(
    alloc: Global,
    route: &Route,
    request: &Request,
    body: &[u8],
) -> Result<Asking, Memory>
    requires path { IsPath request.now.path route.now }
    ensures { IfOk result (λ asking. IsAsking route.now request.now body.now asking) }
{
    match route.name {
        CallName::AuthorizeAccount => {
            let call = authorize(alloc, route.version, request)?;
            Ok(with_call(None, call))
        }
        CallName::DownloadFileById => {
            let token = download_token(alloc, request)?;
            let call = download_by_id(alloc, request)?;
            Ok(with_call(token, call))
        }
        CallName::DownloadFileByName => {
            let token = download_token(alloc, request)?;
            let call = download_by_name(alloc, request)?;
            Ok(with_call(token, call))
        }
        CallName::UploadFile | CallName::UploadPart => {
            let token = token_of(alloc, request)?;
            let upload = upload(alloc, route.target, request)?;
            Ok(Asking {
                token,
                asked: Asked::Upload(upload),
            })
        }
        _ => {
            let token = token_of(alloc, request)?;
            let call = read_call(alloc, route.name, route.version, body)?;
            Ok(with_call(token, call))
        }
    }
}
