//! Values of Basic headers, and bodies.

use api_json::{basic, refusal_body, write_answer};
use b2_base::{BucketNum, KeyNum, List, Memory, Moment, Text, VersionNum};
use b2_types::{
    ApiVersion, Fault, Mark, NextRow, RowKind, Shown, ShownAccount, ShownBucket, ShownDigest,
    ShownFile, ShownKey, ShownLimit, ShownLock,
};
use name_rules::{BucketName, bucket_name, info_pairs};
use rule_table::{Cap, CapSet, FaultKind};
use std::alloc::Global;
use std::test::Fail;

// The pair that the value gives, joined by a bar.
fn shown(alloc: Global, value: &[u8]) -> Result<Option<String>, Fail> {
    match basic(alloc, value) {
        Ok(Some(found)) => {
            let id = found.id.get();
            let secret = found.secret.get();
            Ok(Some(format!(in alloc; "{id}|{secret}")?))
        }
        Ok(None) => Ok(None),
        Err(_) => Err(Fail::from("memory")),
    }
}

#[test]
fn pairs(rt: HostRuntime) -> Result<(), Fail> {
    let alloc = rt.alloc();
    let cases: [(&[u8], &str); 4] = [
        (b"Basic YTpi", "a|b"),
        // The first colon divides.
        (b"Basic YTpiOmM=", "a|b:c"),
        (b"Basic Og==", "|"),
        (b"Basic w6k6YQ==", "\u{e9}|a"),
    ];
    for (value, pair) in cases {
        let found = shown(alloc, value)?.ok_or("a pair")?;
        assert_eq!(rt; found.as_str(), pair);
    }
    let none: [&[u8]; 8] = [
        b"",
        b"Basic",
        b"basic YTpi",
        b"Basic  YTpi",
        // No padding, no colon, no UTF-8, bits after the last byte.
        b"Basic YTpiOmM",
        b"Basic YWI=",
        b"Basic /zph",
        b"Basic Oh==",
    ];
    for value in none {
        assert!(rt; shown(alloc, value)?.is_none());
    }
    Ok(())
}

// The body of the answer, which ends here: no exit of a test has an answer to drop.
fn written(alloc: Global, shown: Shown) -> Result<Text, Memory> {
    write_answer(alloc, &shown)
}

fn named(alloc: Global, name: &[u8]) -> Result<BucketName, Fail> {
    Ok(bucket_name(alloc, name).ok().ok_or("a name")?)
}

fn limited(alloc: Global, version: ApiVersion) -> Result<ShownAccount, Fail> {
    let bucket = BucketNum::new(1).ok_or("a bucket")?;
    let name = Some(named(alloc, b"photos-1")?);
    Ok(ShownAccount {
        version,
        account: Text::copy(alloc, "a1b2c3d4e5f6")?,
        token: Text::copy(alloc, "3_\"")?,
        url: Text::copy(alloc, "http://127.0.0.1:8080")?,
        part_min: 10,
        caps: CapSet::none().with(Cap::ReadFiles).with(Cap::ListFiles),
        buckets: List::of(vec![in alloc; ShownLimit { bucket, name }]?),
        prefix: Text::copy(alloc, "logs/")?,
        end: Some(Moment::from_reading(2_000)),
    })
}

const LIMITED: &str =
    "{\"accountId\":\"a1b2c3d4e5f6\",\"apiInfo\":{\"storageApi\":{\"absoluteMinimumPartSize\":10,\"apiUrl\":\"http://127.0.0.1:8080\",\"bucketId\":\"000000000000000000000001\",\"bucketName\":\"photos-1\",\"capabilities\":[\"listFiles\",\"readFiles\"],\"downloadUrl\":\"http://127.0.0.1:8080\",\"infoType\":\"storageApi\",\"namePrefix\":\"logs/\",\"recommendedPartSize\":100000000}},\"applicationKeyExpirationTimestamp\":2000,\"authorizationToken\":\"3_\\\"\"}";

const LIMITED_FOUR: &str =
    "{\"accountId\":\"a1b2c3d4e5f6\",\"apiInfo\":{\"storageApi\":{\"absoluteMinimumPartSize\":10,\"apiUrl\":\"http://127.0.0.1:8080\",\"buckets\":[{\"id\":\"000000000000000000000001\",\"name\":\"photos-1\"}],\"capabilities\":[\"listFiles\",\"readFiles\"],\"downloadUrl\":\"http://127.0.0.1:8080\",\"infoType\":\"storageApi\",\"namePrefix\":\"logs/\",\"recommendedPartSize\":100000000}},\"applicationKeyExpirationTimestamp\":2000,\"authorizationToken\":\"3_\\\"\"}";

// The account of a key that is limited to a bucket and a prefix, and ends.
#[test]
fn limited_account(rt: HostRuntime) -> Result<(), Fail> {
    let alloc = rt.alloc();
    let three = written(alloc, Shown::Account(limited(alloc, ApiVersion::V3)?))?;
    assert_eq!(rt; three.get(), LIMITED);
    let four = written(alloc, Shown::Account(limited(alloc, ApiVersion::V4)?))?;
    assert_eq!(rt; four.get(), LIMITED_FOUR);
    Ok(())
}

const BUCKET: &str =
    "{\"accountId\":\"a1b2c3d4e5f6\",\"bucketId\":\"000000000000000000000001\",\"bucketInfo\":{},\"bucketName\":\"photos-1\",\"bucketType\":\"allPrivate\",\"corsRules\":[],\"defaultServerSideEncryption\":{\"isClientAuthorizedToRead\":false,\"value\":null},\"fileLockConfiguration\":{\"isClientAuthorizedToRead\":true,\"value\":{\"defaultRetention\":{\"mode\":null,\"period\":null},\"isFileLockEnabled\":false}},\"lifecycleRules\":[],\"options\":[],\"revision\":1}";

#[test]
fn new_bucket(rt: HostRuntime) -> Result<(), Fail> {
    let alloc = rt.alloc();
    let bucket = ShownBucket {
        account: Text::copy(alloc, "a1b2c3d4e5f6")?,
        num: BucketNum::new(1).ok_or("a bucket")?,
        name: named(alloc, b"photos-1")?,
        public: false,
        revision: 1,
        lock: Some(ShownLock {
            enabled: false,
            default: None,
        }),
        info: info_pairs(alloc, &[]).ok().ok_or("pairs")?,
        rules: List::of(Vec::new(alloc)),
    };
    assert_eq!(rt; written(alloc, Shown::Bucket(bucket))?.get(), BUCKET);
    Ok(())
}

const KEYS: &str =
    "{\"keys\":[{\"accountId\":\"a1b2c3d4e5f6\",\"applicationKeyId\":\"001a1b2c3d4e5f60000000002\",\"bucketId\":\"000000000000000000000001\",\"capabilities\":[],\"expirationTimestamp\":null,\"keyName\":\"two\",\"namePrefix\":null,\"options\":[\"multiBucket\"]},{\"accountId\":\"a1b2c3d4e5f6\",\"applicationKeyId\":\"a1b2c3d4e5f6\",\"bucketIds\":null,\"capabilities\":[],\"expirationTimestamp\":null,\"keyName\":\"two\",\"namePrefix\":null,\"options\":[]}],\"nextApplicationKeyId\":null}";

fn key(
    alloc: Global,
    version: ApiVersion,
    num: u32,
    buckets: Vec<BucketNum>,
) -> Result<ShownKey, Fail> {
    Ok(ShownKey {
        version,
        account: Text::copy(alloc, "a1b2c3d4e5f6")?,
        num: KeyNum::new(num).ok_or("a key")?,
        name: Text::copy(alloc, "two")?,
        caps: CapSet::none(),
        buckets: List::of(buckets),
        prefix: Text::copy(alloc, "")?,
        end: None,
    })
}

// A key of two buckets in version 3, and the master key in version 4.
#[test]
fn two_keys(rt: HostRuntime) -> Result<(), Fail> {
    let alloc = rt.alloc();
    let first = BucketNum::new(1).ok_or("a bucket")?;
    let second = BucketNum::new(3).ok_or("a bucket")?;
    let limited = key(alloc, ApiVersion::V3, 2, vec![in alloc; first, second]?)?;
    let master = key(alloc, ApiVersion::V4, 0, Vec::new(alloc))?;
    let keys = List::of(vec![in alloc; limited, master]?);
    assert_eq!(rt; written(alloc, Shown::Keys(keys, None))?.get(), KEYS);
    Ok(())
}

const ROWS: &str =
    "{\"files\":[{\"accountId\":\"a1b2c3d4e5f6\",\"action\":\"upload\",\"bucketId\":\"000000000000000000000001\",\"contentLength\":3,\"contentMd5\":null,\"contentSha1\":\"unverified:0000000000000000000000000000000000000000\",\"contentType\":\"text/plain\",\"fileId\":\"4_z00000001_f0000000000000001\",\"fileInfo\":{\"a\":\"b\"},\"fileName\":\"a.txt\",\"fileRetention\":{\"isClientAuthorizedToRead\":true,\"value\":{\"mode\":null,\"retainUntilTimestamp\":null}},\"legalHold\":{\"isClientAuthorizedToRead\":false,\"value\":null},\"serverSideEncryption\":{\"algorithm\":null,\"mode\":null},\"uploadTimestamp\":2000}],\"nextFileId\":null,\"nextFileName\":\"d/\"}";

// A row that the key may read but for its hold, before a folder.
#[test]
fn rows_of_versions(rt: HostRuntime) -> Result<(), Fail> {
    let alloc = rt.alloc();
    let pair = (Text::copy(alloc, "a")?, Text::copy(alloc, "b")?);
    let row = ShownFile {
        account: Text::copy(alloc, "a1b2c3d4e5f6")?,
        action: RowKind::Upload,
        bucket: BucketNum::new(1).ok_or("a bucket")?,
        length: 3,
        digest: Some(ShownDigest {
            mark: Mark::Unverified,
            digest: [0; 20],
        }),
        kind: Some(Text::copy(alloc, "text/plain")?),
        num: VersionNum::new(1).ok_or("a version")?,
        info: List::of(vec![in alloc; pair]?),
        name: Text::copy(alloc, "a.txt")?,
        retention: Some(None),
        hold: None,
        stamp: Moment::from_reading(2_000),
    };
    let next = NextRow {
        name: Text::copy(alloc, "d/")?,
        version: None,
    };
    let rows = List::of(vec![in alloc; row]?);
    assert_eq!(rt;
        written(alloc, Shown::FileVersions(rows, Some(next)))?.get(),
        ROWS
    );
    Ok(())
}

#[test]
fn refusal(rt: HostRuntime) -> Result<(), Fail> {
    let alloc = rt.alloc();
    let fault = Fault::with_number(FaultKind::Conflict, 2);
    assert_eq!(rt;
        refusal_body(alloc, &fault)?.get(),
        "{\"code\":\"conflict\",\"message\":\"revision differs: 2\",\"status\":409}"
    );
    Ok(())
}
