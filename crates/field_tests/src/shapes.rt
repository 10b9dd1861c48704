//! Numbers at their ends, keys that stand twice or are no field's, and bodies in bodies.

use crate::calls::told;
use b2_base::{Memory, Text};
use rule_table::CallName;
use std::alloc::Global;
use std::test::Fail;

#[test]
fn numbers(rt: HostRuntime) -> Result<(), Fail> {
    let alloc = rt.alloc();
    let update = "{\"accountId\":\"a\",\"bucketId\":\"000000000000000000000001\",\"ifRevisionIs\":";
    let parts = "{\"fileId\":\"4_z00000001_f0000000000000001\",\"startPartNumber\":";
    let rows: [(CallName, &str, &str, &str); 13] = [
        (CallName::UpdateBucket, update, "0", ""),
        (CallName::UpdateBucket, update, "18446744073709551615", ""),
        (
            CallName::UpdateBucket,
            update,
            "18446744073709551616",
            "bad field: ifRevisionIs",
        ),
        (
            CallName::UpdateBucket,
            update,
            "184467440737095516170",
            "bad field: ifRevisionIs",
        ),
        (
            CallName::UpdateBucket,
            update,
            "-1",
            "bad field: ifRevisionIs",
        ),
        (
            CallName::UpdateBucket,
            update,
            "1.0",
            "bad field: ifRevisionIs",
        ),
        (
            CallName::UpdateBucket,
            update,
            "1e0",
            "bad field: ifRevisionIs",
        ),
        (
            CallName::UpdateBucket,
            update,
            "\"1\"",
            "bad field: ifRevisionIs",
        ),
        (CallName::UpdateBucket, update, "null", ""),
        (
            CallName::UpdateBucket,
            update,
            "01",
            "body is not a JSON object",
        ),
        (CallName::ListParts, parts, "4294967295", ""),
        (
            CallName::ListParts,
            parts,
            "4294967296",
            "bad field: startPartNumber",
        ),
        // It is 1 in 64 bits.
        (
            CallName::ListParts,
            parts,
            "18446744073709551617",
            "bad field: startPartNumber",
        ),
    ];
    for (name, front, number, fault) in rows {
        let body = format!(in alloc; "{front}{number}}}")?;
        assert_eq!(rt; told(alloc, name, body.as_str())?.get(), fault);
    }
    Ok(())
}

#[test]
fn keys(rt: HostRuntime) -> Result<(), Fail> {
    let alloc = rt.alloc();
    let rows: [(&str, &str); 7] = [
        // Of a key that stands twice the last counts.
        (
            "{\"fileId\":7,\"fileId\":\"4_z00000001_f0000000000000001\"}",
            "",
        ),
        (
            "{\"fileId\":\"4_z00000001_f0000000000000001\",\"fileId\":7}",
            "bad field: fileId",
        ),
        ("{\"file\\u0049d\":\"4_z00000001_f0000000000000001\"}", ""),
        (
            "{\"fileid\":\"4_z00000001_f0000000000000001\"}",
            "missing field: fileId",
        ),
        (
            "{\"\":{},\"fileId\":\"4_z00000001_f0000000000000001\",\"fileIds\":[]}",
            "",
        ),
        (
            "{\"other\":{\"fileId\":\"4_z00000001_f0000000000000001\"}}",
            "missing field: fileId",
        ),
        (
            "{\"fileId\":\"4_z00000001_f0000000000000001\",\"other\":+}",
            "body is not a JSON object",
        ),
    ];
    for (body, fault) in rows {
        assert_eq!(rt; told(alloc, CallName::GetFileInfo, body)?.get(), fault);
    }
    Ok(())
}

// What is told of a body with an unknown field of so many lists in one another.
fn told_nested(alloc: Global, lists: usize) -> Result<Text, Memory> {
    let mut body = String::from_str(
        alloc,
        "{\"fileId\":\"4_z00000001_f0000000000000001\",\"other\":",
    )?;
    for _ in 0..lists {
        body.push('[')?;
    }
    for _ in 0..lists {
        body.push(']')?;
    }
    body.push('}')?;
    told(alloc, CallName::GetFileInfo, body.as_str())
}

#[test]
fn nested(rt: HostRuntime) -> Result<(), Fail> {
    let alloc = rt.alloc();
    let rows: [(usize, &str); 4] = [
        (1, ""),
        (126, ""),
        (127, "body is not a JSON object"),
        (10_000, "body is not a JSON object"),
    ];
    for (lists, fault) in rows {
        assert_eq!(rt; told_nested(alloc, lists)?.get(), fault);
    }
    Ok(())
}
