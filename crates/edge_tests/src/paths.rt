//! Paths, and the calls that they are for.

use b2_base::{BucketNum, VersionNum};
use b2_types::{ApiVersion, Target};
use call_paths::{
    download_parts, read_path, route_of, write_download_path, write_name_path, write_part_path,
    write_upload_path,
};
use rule_table::{CallName, FaultKind};
use std::alloc::Global;
use std::test::Fail;

#[test]
fn other_paths(rt: HostRuntime) -> Result<(), Fail> {
    for path in [
        "",
        "/x",
        "/b2api/v3/",
        "/b2api/v2/b2_create_bucket",
        "/b2api/v5/b2_create_key",
        "/b2api/V3/b2_create_bucket",
        "/b2api/v3/b2_create_bucket/",
        "/b2api/v3/b2_Create_bucket",
        "/b2api/v3/b2_upload_file",
        "/b2api/v3/b2_upload_file/",
        "/b2api/v3/b2_upload_file/00000000000000000000001",
        "/b2api/v3/b2_upload_file/00000000000000000000000A",
        "/b2api/v3/b2_upload_file/100000000000000000000001",
        "/b2api/v3/b2_upload_part/4_z00000001_f0020000000000000",
        "/b2api/v3/b2_download_file_by_name",
        // Version 4 has the calls on keys and no others.
        "/b2api/v4/b2_create_bucket",
        "/b2api/v4/b2_upload_file/000000000000000000000001",
        "/b2api/v4/b2_create_key/",
        "/file/b",
        "/files/b/n",
    ] {
        assert!(rt; read_path(path.as_bytes()).is_none(), "{path}");
    }
    Ok(())
}

#[test]
fn paths(rt: HostRuntime) -> Result<(), Fail> {
    for (path, name, version, names) in [
        (
            "/b2api/v3/b2_create_bucket",
            CallName::CreateBucket,
            ApiVersion::V3,
            false,
        ),
        (
            "/b2api/v3/b2_download_file_by_id",
            CallName::DownloadFileById,
            ApiVersion::V3,
            false,
        ),
        (
            "/b2api/v3/b2_copy_part",
            CallName::CopyPart,
            ApiVersion::V3,
            false,
        ),
        (
            "/b2api/v4/b2_authorize_account",
            CallName::AuthorizeAccount,
            ApiVersion::V4,
            false,
        ),
        (
            "/b2api/v4/b2_list_keys",
            CallName::ListKeys,
            ApiVersion::V4,
            false,
        ),
        (
            "/b2api/v3/b2_upload_file/000000000000000000000000",
            CallName::UploadFile,
            ApiVersion::V3,
            true,
        ),
        (
            "/b2api/v3/b2_upload_file/000000000000000000000001",
            CallName::UploadFile,
            ApiVersion::V3,
            true,
        ),
        (
            "/b2api/v3/b2_upload_part/4_z00000001_f001fffffffffffff",
            CallName::UploadPart,
            ApiVersion::V3,
            true,
        ),
        // Neither the names of a download nor their escapes are judged here.
        (
            "/file/b/",
            CallName::DownloadFileByName,
            ApiVersion::V3,
            false,
        ),
        (
            "/file//n",
            CallName::DownloadFileByName,
            ApiVersion::V3,
            false,
        ),
        (
            "/file/b/d/n",
            CallName::DownloadFileByName,
            ApiVersion::V3,
            false,
        ),
        (
            "/file/b/a%2",
            CallName::DownloadFileByName,
            ApiVersion::V3,
            false,
        ),
        (
            "/file/b/a+b%20c",
            CallName::DownloadFileByName,
            ApiVersion::V3,
            false,
        ),
        (
            "/file/b/a%7Fb",
            CallName::DownloadFileByName,
            ApiVersion::V3,
            false,
        ),
        (
            "/file/b/d/a%2",
            CallName::DownloadFileByName,
            ApiVersion::V3,
            false,
        ),
    ] {
        let route = read_path(path.as_bytes()).ok_or("no path")?;
        assert_eq!(rt; route.name, name, "{path}");
        assert_eq!(rt; route.version, version, "{path}");
        assert_eq!(rt; route.target != Target::Nothing, names, "{path}");
    }
    Ok(())
}

// What a request with this method and path is refused for.
fn fault_of(method: &str, path: &str) -> Option<FaultKind> {
    match route_of(method.as_bytes(), path.as_bytes()) {
        Ok(_) => None,
        Err(kind) => Some(kind),
    }
}

#[test]
fn requests(rt: HostRuntime) -> Result<(), Fail> {
    let authorize = "/b2api/v3/b2_authorize_account";
    for (method, path, want) in [
        ("GET", authorize, None),
        ("POST", authorize, None),
        ("PUT", authorize, Some(FaultKind::BadMethod)),
        ("HEAD", authorize, Some(FaultKind::BadMethod)),
        ("get", authorize, Some(FaultKind::BadMethod)),
        ("", authorize, Some(FaultKind::BadMethod)),
        // A call that is not served is none yet, whatever its method.
        (
            "GET",
            "/b2api/v4/b2_authorize_account",
            Some(FaultKind::NoCall),
        ),
        ("PUT", "/b2api/v3/b2_create_bucket", Some(FaultKind::NoCall)),
        ("POST", "/x", Some(FaultKind::NoCall)),
    ] {
        assert_eq!(rt; fault_of(method, path), want, "{method} {path}");
    }
    Ok(())
}

// The paths that a client writes.
fn write_all(alloc: Global) -> Result<String, Fail> {
    let mut all = String::new(alloc);
    for version in [ApiVersion::V3, ApiVersion::V4] {
        let path = write_name_path(alloc, version, CallName::CreateKey)?;
        all.push_str(path.get())?;
        all.push_str("\n")?;
    }
    let bucket = BucketNum::new(26).ok_or("a bucket")?;
    let file = VersionNum::new(255).ok_or("a version")?;
    for path in [
        write_upload_path(alloc, bucket)?,
        write_part_path(alloc, bucket, file)?,
        write_download_path(alloc, "photos", "a%20b/c")?,
    ] {
        all.push_str(path.get())?;
        all.push_str("\n")?;
    }
    Ok(all)
}

#[test]
fn written(rt: HostRuntime) -> Result<(), Fail> {
    assert_eq!(rt;
        write_all(rt.alloc())?.as_str(),
        "/b2api/v3/b2_create_key\n/b2api/v4/b2_create_key\n/b2api/v3/b2_upload_file/00000000000000000000001a\n/b2api/v3/b2_upload_part/4_z0000001a_f00000000000000ff\n/file/photos/a%20b/c\n"
    );
    let (bucket, name) = download_parts(b"/file/photos/a%20b/c").ok_or("no parts")?;
    assert_eq!(rt; bucket, b"photos".as_slice());
    assert_eq!(rt; name, b"a%20b/c".as_slice());
    Ok(())
}
