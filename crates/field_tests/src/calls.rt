//! Bodies of calls, and the first fault of each.

use b2_base::{Memory, Text};
use b2_types::{ApiVersion, Call, message_of};
use call_fields::read_call;
use rule_table::CallName;
use std::alloc::Global;
use std::test::Fail;

// The message of a bad call's fault; empty for a call.
fn message(alloc: Global, call: Call) -> Result<Text, Memory> {
    match call {
        Call::Bad(bad) => message_of(alloc, &bad.fault),
        _ => Text::copy(alloc, ""),
    }
}

fn told_under(
    alloc: Global,
    name: CallName,
    version: ApiVersion,
    body: &str,
) -> Result<Text, Memory> {
    let call = read_call(alloc, name, version, body.as_bytes())?;
    message(alloc, call)
}

/// The message of the fault of a body of this call; empty for a call.
pub(crate) fn told(alloc: Global, name: CallName, body: &str) -> Result<Text, Memory> {
    told_under(alloc, name, ApiVersion::V3, body)
}

#[test]
fn files(rt: HostRuntime) -> Result<(), Fail> {
    let alloc = rt.alloc();
    let rows: [(CallName, &str, &str); 16] = [
        (
            CallName::HideFile,
            "{\"bucketId\":\"000000000000000000000001\",\"fileName\":\"a.txt\"}",
            "",
        ),
        (CallName::HideFile, "[]", "body is not a JSON object"),
        (
            CallName::HideFile,
            "{\"a\":1e400}",
            "body is not a JSON object",
        ),
        (
            CallName::HideFile,
            "{\"fileName\":7}",
            "missing field: bucketId",
        ),
        (
            CallName::HideFile,
            "{\"bucketId\":null}",
            "missing field: bucketId",
        ),
        (
            CallName::HideFile,
            "{\"bucketId\":\"00000000000000000000000A\"}",
            "bad field: bucketId",
        ),
        (
            CallName::HideFile,
            "{\"bucketId\":\"000000000000000000000000\",\"fileName\":\"\"}",
            "bad field: fileName",
        ),
        (
            CallName::HideFile,
            "{\"bucketId\":\"000000000000000000000000\",\"fileName\":\"\\u007f\"}",
            "bad field: fileName",
        ),
        (
            CallName::GetFileInfo,
            "{\"fileId\":\"4_z00000001_f001fffffffffffff\",\"other\":1.5}",
            "",
        ),
        (
            CallName::GetFileInfo,
            "{\"fileId\":\"4_z00000001_f0020000000000000\"}",
            "bad field: fileId",
        ),
        (
            CallName::DeleteFileVersion,
            "{\"fileName\":\"a\",\"fileId\":\"4_z00000001_f0000000000000001\",\"bypassGovernance\":0}",
            "bad field: bypassGovernance",
        ),
        (
            CallName::GetDownloadAuthorization,
            "{\"bucketId\":\"000000000000000000000001\",\"fileNamePrefix\":\"\",\"validDurationInSeconds\":604800}",
            "",
        ),
        (
            CallName::GetDownloadAuthorization,
            "{\"bucketId\":\"000000000000000000000001\",\"fileNamePrefix\":\"\",\"validDurationInSeconds\":604801}",
            "bad field: validDurationInSeconds",
        ),
        (
            CallName::UpdateFileLegalHold,
            "{\"fileName\":\"a\",\"fileId\":\"4_z00000001_f0000000000000001\",\"legalHold\":\"On\"}",
            "bad field: legalHold",
        ),
        (
            CallName::UpdateFileRetention,
            "{\"fileName\":\"a\",\"fileId\":\"4_z00000001_f0000000000000001\",\"fileRetention\":{\"mode\":null,\"retainUntilTimestamp\":\"x\"}}",
            "",
        ),
        (
            CallName::UpdateFileRetention,
            "{\"fileName\":\"a\",\"fileId\":\"4_z00000001_f0000000000000001\",\"fileRetention\":{\"mode\":\"compliance\"}}",
            "bad field: fileRetention",
        ),
    ];
    for (name, body, fault) in rows {
        assert_eq!(rt; told(alloc, name, body)?.get(), fault);
    }
    Ok(())
}

#[test]
fn lists(rt: HostRuntime) -> Result<(), Fail> {
    let alloc = rt.alloc();
    let rows: [(CallName, &str, &str); 14] = [
        (
            CallName::ListBuckets,
            "{\"accountId\":\"\",\"bucketTypes\":[]}",
            "",
        ),
        (
            CallName::ListBuckets,
            "{\"accountId\":\"\",\"bucketName\":\"b2-abcd\"}",
            "bad field: bucketName",
        ),
        (
            CallName::ListBuckets,
            "{\"accountId\":\"\",\"bucketTypes\":[\"all\",1]}",
            "bad field: bucketTypes",
        ),
        (
            CallName::ListKeys,
            "{\"accountId\":\"a\",\"startApplicationKeyId\":\"001a1b2c3d4e5f60000000001\"}",
            "",
        ),
        (
            CallName::ListKeys,
            "{\"accountId\":\"a\",\"startApplicationKeyId\":\"001a1b2c3d4e5f60000000000\"}",
            "bad field: startApplicationKeyId",
        ),
        (
            CallName::DeleteKey,
            "{\"applicationKeyId\":\"a1b2c3d4e5f6\"}",
            "",
        ),
        (
            CallName::DeleteKey,
            "{\"applicationKeyId\":\"a1b2c3d4e5fg\"}",
            "bad field: applicationKeyId",
        ),
        (
            CallName::ListFileNames,
            "{\"bucketId\":\"000000000000000000000001\",\"maxFileCount\":10000,\"delimiter\":\"/\"}",
            "",
        ),
        (
            CallName::ListFileNames,
            "{\"bucketId\":\"000000000000000000000001\",\"maxFileCount\":10001}",
            "bad field: maxFileCount",
        ),
        (
            CallName::ListFileNames,
            "{\"bucketId\":\"000000000000000000000001\",\"delimiter\":\"\"}",
            "bad field: delimiter",
        ),
        (
            CallName::ListFileVersions,
            "{\"bucketId\":\"000000000000000000000001\",\"startFileId\":\"4_z00000001_f0000000000000001\"}",
            "bad field: startFileId",
        ),
        (
            CallName::ListFileVersions,
            "{\"bucketId\":\"000000000000000000000001\",\"startFileName\":\"\",\"startFileId\":\"4_z00000001_f0000000000000001\"}",
            "",
        ),
        (
            CallName::FinishLargeFile,
            "{\"fileId\":\"4_z00000001_f0000000000000001\",\"partSha1Array\":[\"A9993E364706816ABA3E25717850C26C9CD0D89D\"]}",
            "",
        ),
        (
            CallName::FinishLargeFile,
            "{\"fileId\":\"4_z00000001_f0000000000000001\",\"partSha1Array\":[\"a9\"]}",
            "bad field: partSha1Array",
        ),
    ];
    for (name, body, fault) in rows {
        assert_eq!(rt; told(alloc, name, body)?.get(), fault);
    }
    Ok(())
}

#[test]
fn information(rt: HostRuntime) -> Result<(), Fail> {
    let alloc = rt.alloc();
    let front = "{\"accountId\":\"a\",\"bucketName\":\"photos-1\",\"bucketType\":\"allPrivate\"";
    let rows: [(&str, &str); 11] = [
        ("", ""),
        ("\"corsRules\":[],\"bucketInfo\":{\"A\":\"b\"}", ""),
        (
            "\"bucketInfo\":{\"a\":1},\"fileLockEnabled\":1",
            "bad field: bucketInfo",
        ),
        (
            "\"bucketInfo\":{\"a\":\"b\",\"A\":\"c\"}",
            "bad field: bucketInfo",
        ),
        (
            "\"corsRules\":[1],\"fileLockEnabled\":1",
            "bad field: fileLockEnabled",
        ),
        (
            "\"corsRules\":[1],\"replicationConfiguration\":1",
            "not offered: corsRules",
        ),
        (
            "\"defaultServerSideEncryption\":{\"mode\":\"SSE-B2\"}",
            "not offered: defaultServerSideEncryption",
        ),
        (
            "\"replicationConfiguration\":1.5",
            "not offered: replicationConfiguration",
        ),
        (
            "\"lifecycleRules\":[{\"fileNamePrefix\":\"\",\"daysFromUploadingToHiding\":36500}]",
            "",
        ),
        (
            "\"lifecycleRules\":[{\"fileNamePrefix\":\"\",\"daysFromUploadingToHiding\":0}]",
            "bad field: lifecycleRules",
        ),
        (
            "\"lifecycleRules\":[{\"fileNamePrefix\":\"a\"},{\"fileNamePrefix\":\"ab\"}]",
            "bad field: lifecycleRules",
        ),
    ];
    for (more, fault) in rows {
        let comma = if more.is_empty() { "" } else { "," };
        let body = format!(in alloc; "{front}{comma}{more}}}")?;
        let found = told(alloc, CallName::CreateBucket, body.as_str())?;
        assert_eq!(rt; found.get(), fault);
    }
    Ok(())
}

fn told_after(
    alloc: Global,
    name: CallName,
    version: ApiVersion,
    front: &str,
    more: &str,
) -> Result<Text, Memory> {
    let body = format!(in alloc; "{front},{more}}}")?;
    told_under(alloc, name, version, body.as_str())
}

#[test]
fn keys(rt: HostRuntime) -> Result<(), Fail> {
    let alloc = rt.alloc();
    let account = "{\"accountId\":\"a\"";
    let well = "{\"accountId\":\"a\",\"capabilities\":[\"listFiles\"],\"keyName\":\"k\"";
    let rows: [(ApiVersion, &str, &str, &str); 23] = [
        (
            ApiVersion::V3,
            account,
            "\"capabilities\":[\"bypassGovernance\",\"listFiles\"],\"keyName\":\"k\"",
            "",
        ),
        (
            ApiVersion::V3,
            account,
            "\"keyName\":\"k\"",
            "missing field: capabilities",
        ),
        (
            ApiVersion::V3,
            account,
            "\"capabilities\":null",
            "missing field: capabilities",
        ),
        (
            ApiVersion::V3,
            account,
            "\"capabilities\":\"listFiles\"",
            "bad field: capabilities",
        ),
        (
            ApiVersion::V3,
            account,
            "\"capabilities\":[]",
            "bad field: capabilities",
        ),
        (
            ApiVersion::V3,
            account,
            "\"capabilities\":[\"listfiles\"]",
            "bad field: capabilities",
        ),
        (
            ApiVersion::V3,
            account,
            "\"capabilities\":[\"listFiles\",\"readFiles\",\"listFiles\"]",
            "bad field: capabilities",
        ),
        (
            ApiVersion::V3,
            account,
            "\"capabilities\":[\"listFiles\"]",
            "missing field: keyName",
        ),
        (
            ApiVersion::V3,
            account,
            "\"capabilities\":[\"listFiles\"],\"keyName\":\"a_b\"",
            "bad field: keyName",
        ),
        (
            ApiVersion::V3,
            well,
            "\"validDurationInSeconds\":86399999",
            "",
        ),
        (
            ApiVersion::V3,
            well,
            "\"validDurationInSeconds\":86400000,\"bucketId\":1",
            "bad field: validDurationInSeconds",
        ),
        (
            ApiVersion::V3,
            well,
            "\"validDurationInSeconds\":0",
            "bad field: validDurationInSeconds",
        ),
        (
            ApiVersion::V3,
            well,
            "\"bucketId\":\"000000000000000000000001\",\"namePrefix\":\"\"",
            "",
        ),
        (
            ApiVersion::V3,
            well,
            "\"bucketId\":\"1\",\"namePrefix\":1",
            "bad field: bucketId",
        ),
        (
            ApiVersion::V3,
            well,
            "\"bucketId\":\"000000000000000000000001\",\"namePrefix\":1",
            "bad field: namePrefix",
        ),
        (
            ApiVersion::V3,
            well,
            "\"bucketId\":null,\"namePrefix\":\"a\"",
            "bad field: namePrefix",
        ),
        (ApiVersion::V3, well, "\"bucketIds\":7", ""),
        (ApiVersion::V4, well, "\"bucketId\":7", ""),
        (
            ApiVersion::V4,
            well,
            "\"bucketIds\":[\"000000000000000000000002\",\"000000000000000000000001\"],\"namePrefix\":\"a\"",
            "",
        ),
        (
            ApiVersion::V4,
            well,
            "\"bucketIds\":[\"000000000000000000000002\",\"000000000000000000000002\"]",
            "bad field: bucketIds",
        ),
        (
            ApiVersion::V4,
            well,
            "\"bucketIds\":[]",
            "bad field: bucketIds",
        ),
        (
            ApiVersion::V4,
            well,
            "\"bucketIds\":[\"000000000000000000000001\",\"000000000000000000000002\",\"000000000000000000000003\",\"000000000000000000000004\",\"000000000000000000000005\",\"000000000000000000000006\",\"000000000000000000000007\",\"000000000000000000000008\",\"000000000000000000000009\",\"00000000000000000000000a\",\"00000000000000000000000b\",\"00000000000000000000000c\",\"00000000000000000000000d\",\"00000000000000000000000e\",\"00000000000000000000000f\",\"000000000000000000000010\",\"000000000000000000000011\"]",
            "bad field: bucketIds",
        ),
        (
            ApiVersion::V4,
            well,
            "\"bucketId\":\"000000000000000000000001\",\"namePrefix\":\"a\"",
            "bad field: namePrefix",
        ),
    ];
    for (version, front, more, fault) in rows {
        let found = told_after(alloc, CallName::CreateKey, version, front, more)?;
        assert_eq!(rt; found.get(), fault);
    }
    Ok(())
}

#[test]
fn copies(rt: HostRuntime) -> Result<(), Fail> {
    let alloc = rt.alloc();
    let source = "{\"sourceFileId\":\"4_z00000001_f0000000000000001\"";
    let rows: [(CallName, &str, &str); 22] = [
        (CallName::CopyFile, "\"fileName\":\"b.txt\"", ""),
        (
            CallName::CopyFile,
            "\"fileName\":\"b.txt\",\"range\":\"bytes=1-1\",\"contentType\":null",
            "",
        ),
        (
            CallName::CopyFile,
            "\"destinationBucketId\":\"2\",\"fileName\":\"\"",
            "bad field: destinationBucketId",
        ),
        (
            CallName::CopyFile,
            "\"destinationBucketId\":\"000000000000000000000002\"",
            "missing field: fileName",
        ),
        (
            CallName::CopyFile,
            "\"fileName\":\"b\",\"range\":\"bytes=2-1\"",
            "bad field: range",
        ),
        (
            CallName::CopyFile,
            "\"fileName\":\"b\",\"range\":\"1-2\"",
            "bad field: range",
        ),
        (
            CallName::CopyFile,
            "\"fileName\":\"b\",\"range\":7,\"metadataDirective\":7",
            "bad field: range",
        ),
        (
            CallName::CopyFile,
            "\"fileName\":\"b\",\"metadataDirective\":\"copy\"",
            "bad field: metadataDirective",
        ),
        (
            CallName::CopyFile,
            "\"fileName\":\"b\",\"metadataDirective\":\"COPY\",\"contentType\":\"text/plain\"",
            "bad field: contentType",
        ),
        (
            CallName::CopyFile,
            "\"fileName\":\"b\",\"fileInfo\":{}",
            "bad field: fileInfo",
        ),
        (
            CallName::CopyFile,
            "\"fileName\":\"b\",\"metadataDirective\":\"REPLACE\"",
            "missing field: contentType",
        ),
        (
            CallName::CopyFile,
            "\"fileName\":\"b\",\"metadataDirective\":\"REPLACE\",\"contentType\":\"b2/x-auto\"",
            "",
        ),
        (
            CallName::CopyFile,
            "\"fileName\":\"b\",\"metadataDirective\":\"REPLACE\",\"contentType\":\"a/b\",\"fileInfo\":{\"A\":\"b\"},\"legalHold\":\"on\"",
            "",
        ),
        (
            CallName::CopyFile,
            "\"fileName\":\"b\",\"metadataDirective\":\"REPLACE\",\"contentType\":\"a/b\",\"fileInfo\":{\"a b\":\"c\"}",
            "bad field: fileInfo",
        ),
        (
            CallName::CopyFile,
            "\"fileName\":\"b\",\"fileRetention\":{\"mode\":\"governance\"},\"legalHold\":1",
            "bad field: fileRetention",
        ),
        (
            CallName::CopyFile,
            "\"fileName\":\"b\",\"fileRetention\":{\"mode\":\"none\"},\"legalHold\":1",
            "bad field: legalHold",
        ),
        (
            CallName::CopyPart,
            "\"partNumber\":1",
            "missing field: largeFileId",
        ),
        (
            CallName::CopyPart,
            "\"largeFileId\":\"4_z00000002_f0000000000000002\",\"partNumber\":0",
            "bad field: partNumber",
        ),
        (
            CallName::CopyPart,
            "\"largeFileId\":\"4_z00000002_f0000000000000002\",\"partNumber\":10000",
            "",
        ),
        (
            CallName::CopyPart,
            "\"largeFileId\":\"4_z00000002_f0000000000000002\",\"partNumber\":10001",
            "bad field: partNumber",
        ),
        (
            CallName::CopyPart,
            "\"largeFileId\":\"4_z00000002_f0000000000000002\",\"partNumber\":1,\"range\":\"bytes=-\"",
            "bad field: range",
        ),
        (
            CallName::CopyPart,
            "\"largeFileId\":\"4_z00000002_f0000000000000002\",\"partNumber\":1,\"range\":\"bytes=-5\"",
            "",
        ),
    ];
    for (name, more, fault) in rows {
        let found = told_after(alloc, name, ApiVersion::V3, source, more)?;
        assert_eq!(rt; found.get(), fault);
    }
    Ok(())
}
