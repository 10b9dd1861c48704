//! The tables of calls and of faults, a row at a time.

use crate::{
    Detail, Fault, Thing, TokenKind, code_of, message_of, need_of, reason_of, rule_of, status_of,
};
use b2_base::{Memory, Text};
use rule_table::{FaultKind, calls, caps, faults};
use std::alloc::Global;
use std::test::Fail;

// A line for each call: its name, the tokens, the capabilities, and what it names.
const CALLS: &str = "\
b2_authorize_account;;;
b2_create_bucket; Account; writeBuckets; Account
b2_update_bucket; Account; writeBuckets; Account Bucket
b2_delete_bucket; Account; deleteBuckets; Account Bucket
b2_list_buckets; Account; listBuckets; Account SomeBucket
b2_create_key; Account; writeKeys; Account SomeBucket
b2_delete_key; Account; deleteKeys;
b2_list_keys; Account; listKeys; Account
b2_get_upload_url; Account; writeFiles; Bucket
b2_upload_file; UploadUrl; writeFiles; Bucket Name
b2_start_large_file; Account; writeFiles; Bucket Name
b2_get_upload_part_url; Account; writeFiles; File
b2_upload_part; PartUrl; writeFiles; File
b2_list_parts; Account; writeFiles; File
b2_finish_large_file; Account; writeFiles; File
b2_cancel_large_file; Account; writeFiles; File
b2_list_unfinished_large_files; Account; listFiles; Bucket Prefix
b2_list_file_names; Account; listFiles; Bucket Prefix
b2_list_file_versions; Account; listFiles; Bucket Prefix
b2_get_file_info; Account; readFiles; File
b2_hide_file; Account; writeFiles; Bucket Name
b2_delete_file_version; Account; deleteFiles; File
b2_get_download_authorization; Account; shareFiles; Bucket Prefix
b2_download_file_by_id; Account; readFiles; File
b2_download_file_by_name; Account Download; readFiles; PathBucket Name
b2_update_file_retention; Account; writeFileRetentions; File
b2_update_file_legal_hold; Account; writeFileLegalHolds; File
b2_copy_file; Account; writeFiles readFiles; Source Bucket Name
b2_copy_part; Account; writeFiles readFiles; Source File
";

fn token_name(kind: &TokenKind) -> &'static str {
    match kind {
        TokenKind::Account => " Account",
        TokenKind::UploadUrl => " UploadUrl",
        TokenKind::PartUrl => " PartUrl",
        TokenKind::Download => " Download",
    }
}

fn thing_name(thing: &Thing) -> &'static str {
    match thing {
        Thing::Account => " Account",
        Thing::Bucket => " Bucket",
        Thing::SomeBucket => " SomeBucket",
        Thing::PathBucket => " PathBucket",
        Thing::File => " File",
        Thing::Source => " Source",
        Thing::Name => " Name",
        Thing::Prefix => " Prefix",
    }
}

fn add_row(rows: &mut String, name: &str) -> Result<(), Fail> {
    let call = calls().find(name.as_bytes()).ok_or("a call")?;
    let row = need_of(call);
    rows.push_str(name)?;
    rows.push(';')?;
    for kind in row.tokens {
        rows.push_str(token_name(kind))?;
    }
    rows.push(';')?;
    for cap in row.caps {
        rows.push(' ')?;
        let table = caps();
        let cap = str::from_utf8(table.name(*cap)).ok().ok_or("text")?;
        rows.push_str(cap)?;
    }
    rows.push(';')?;
    for thing in row.things {
        rows.push_str(thing_name(thing))?;
    }
    rows.push('\n')?;
    Ok(())
}

#[test]
fn rows_of_calls(rt: HostRuntime) -> Result<(), Fail> {
    let mut rows = String::new(rt.alloc());
    for name in calls().names() {
        add_row(&mut rows, name)?;
    }
    assert_eq!(rt; rows.as_str(), CALLS);
    Ok(())
}

// A line for each kind of fault: its name, the status with its reason, the code, the rule of the policy and
// the message, with the word `w` or the number 7 where the kind tells one.
const FAULTS: &str = "\
BadHead 400 Bad Request; bad_request - head is not HTTP
LongHead 400 Bad Request; bad_request - head is too long
BadLength 400 Bad Request; bad_request - bad content length
NoCall 404 Not Found; not_found - no such call
BadMethod 405 Method Not Allowed; method_not_allowed - method not allowed
NotJson 400 Bad Request; bad_request - body is not a JSON object
Missing 400 Bad Request; bad_request - missing field: w
Wrong 400 Bad Request; bad_request - bad field: w
BadHeader 400 Bad Request; bad_request - bad header: w
Unsupported 400 Bad Request; unsupported - not offered: w
P1 401 Unauthorized; unauthorized P1 P1: no token
P2 401 Unauthorized; bad_auth_token P2 P2: unknown token or key
P3 401 Unauthorized; bad_auth_token P3 P3: token of another kind or target
P4 401 Unauthorized; unauthorized P4 P4: key was deleted
P5 401 Unauthorized; expired_auth_token P5 P5: token has ended
P6 401 Unauthorized; unauthorized P6 P6: key has ended
P7 401 Unauthorized; unauthorized P7 P7: capability lacking
P8 401 Unauthorized; unauthorized P8 P8: other account
P9 401 Unauthorized; unauthorized P9 P9: other bucket
P10 401 Unauthorized; unauthorized P10 P10: name outside the prefix
P11 403 Forbidden; access_denied P11 P11: legal hold
P12 403 Forbidden; access_denied P12 P12: compliance
P13 403 Forbidden; access_denied P13 P13: governance, bypass not asked
P14 403 Forbidden; access_denied P14 P14: governance, bypass not held
NoBucket 400 Bad Request; bad_bucket_id - no such bucket
NoFile 404 Not Found; not_found - no such file
NoKey 400 Bad Request; bad_request - no such key
Duplicate 400 Bad Request; duplicate_bucket_name - bucket name is taken
TooManyBuckets 400 Bad Request; too_many_buckets - too many buckets
Conflict 409 Conflict; conflict - revision differs: 7
NotEmpty 400 Bad Request; cannot_delete_non_empty_bucket - bucket is not empty
Hidden 400 Bad Request; already_hidden - file is hidden
NotLarge 400 Bad Request; bad_request - not an unfinished large file
NoParts 400 Bad Request; bad_request - no parts
Gap 400 Bad Request; bad_request - missing part: 7
Count 400 Bad Request; bad_request - parts kept: 7
Sha 400 Bad Request; bad_request - digest differs at part: 7
Small 400 Bad Request; bad_request - part is too small: 7
BadDigest 400 Bad Request; bad_request - content digest differs
LockOff 400 Bad Request; bad_request - file lock is not enabled
LockStays 400 Bad Request; bad_request - file lock stays enabled
BadUntil 400 Bad Request; bad_request - retention must end later
KeyCaps 400 Bad Request; bad_request - capability not held by the maker
KeyLimit 400 Bad Request; bad_request - capability not given to a limited key
Master 400 Bad Request; bad_request - the master key stays
Range 416 Range Not Satisfiable; range_not_satisfiable - range is not satisfiable
Busy 503 Service Unavailable; service_unavailable - upload URL is busy
Cap 403 Forbidden; cap_exceeded - no number is left
ManyBuckets 400 Bad Request; bad_request - key has several buckets
LongCopy 400 Bad Request; bad_request - copy is too long
";

// What a fault of the kind tells in these rows.
fn detail_of(alloc: Global, kind: FaultKind) -> Result<Detail, Memory> {
    match kind {
        FaultKind::Missing | FaultKind::Wrong | FaultKind::BadHeader | FaultKind::Unsupported => {
            let word = Text::copy(alloc, "w")?;
            Ok(Detail::Word(word))
        }
        FaultKind::Conflict
        | FaultKind::Gap
        | FaultKind::Count
        | FaultKind::Sha
        | FaultKind::Small => Ok(Detail::Number(7)),
        _ => Ok(Detail::Nothing),
    }
}

fn add_fault(alloc: Global, rows: &mut String, name: &str) -> Result<(), Fail> {
    let kind = faults().find(name.as_bytes()).ok_or("a kind")?;
    let detail = detail_of(alloc, kind).ok().ok_or("memory")?;
    let status = status_of(kind);
    let reason = reason_of(kind);
    let code = code_of(kind);
    let rule = if rule_of(kind).is_some() { name } else { "-" };
    let message = message_of(alloc, &Fault { kind, detail })
        .ok()
        .ok_or("memory")?;
    let message = message.get();
    rows.push_str(format!(in alloc;
        "{name} {status} {reason}; {code} {rule} {message}\n"
    )?.as_str())?;
    Ok(())
}

#[test]
fn rows_of_faults(rt: HostRuntime) -> Result<(), Fail> {
    let mut rows = String::new(rt.alloc());
    for name in faults().names() {
        add_fault(rt.alloc(), &mut rows, name)?;
    }
    assert_eq!(rt; rows.as_str(), FAULTS);
    Ok(())
}
