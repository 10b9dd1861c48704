//! The life of a token.

use b2_base::{BucketNum, KeyNum, List, Moment, Text, VersionNum};
use b2_types::{Denial, Grant, Key, Target, TokenKind};
use policy_rules::{Asker, token_rule};
use rule_table::{Cap, CapSet};
use std::alloc::Global;
use std::test::Fail;

fn bucket(number: u32) -> Result<BucketNum, Fail> {
    Ok(BucketNum::new(number).ok_or("bucket")?)
}

fn at(moment: u64) -> Result<Moment, Fail> {
    Ok(Moment::new(moment).ok_or("moment")?)
}

fn limited(alloc: Global) -> Result<Key, Fail> {
    let buckets = vec![in alloc; bucket(1)?, bucket(3)?]?;
    Ok(Key {
        num: KeyNum::new(1).ok_or("key")?,
        name: Text::copy(alloc, "logs")?,
        caps: CapSet::none()
            .with(Cap::ListFiles)
            .with(Cap::ReadFiles)
            .with(Cap::WriteFiles),
        buckets: List::of(buckets),
        prefix: Text::copy(alloc, "logs/")?,
        end: Some(at(5_000_000)?),
        hash: [0; 32],
    })
}

fn given(alloc: Global, kind: TokenKind) -> Result<Grant, Fail> {
    Ok(Grant {
        text: Text::copy(alloc, "token")?,
        kind,
        key: KeyNum::new(1).ok_or("key")?,
        bucket: bucket(2)?,
        file: VersionNum::new(0).ok_or("file")?,
        prefix: Text::copy(alloc, "img/")?,
        end: at(4_000_000)?,
    })
}

#[test]
fn life_of_a_token(rt: HostRuntime) -> Result<(), Fail> {
    let alloc = rt.alloc();
    let key = limited(alloc)?;
    let account = given(alloc, TokenKind::Account)?;
    let upload = given(alloc, TokenKind::UploadUrl)?;
    let text: Option<&[u8]> = Some(b"token");
    for (token, grant, key, moment, answer) in [
        (text, Some(&account), Some(&key), 3_999_999, Ok(())),
        (text, Some(&account), Some(&key), 4_000_000, Err(Denial::P5)),
        (text, Some(&account), Some(&key), 5_000_000, Err(Denial::P5)),
        (text, Some(&account), None, 4_000_000, Err(Denial::P4)),
        (text, Some(&upload), None, 0, Err(Denial::P3)),
        (text, None, None, 0, Err(Denial::P2)),
        (None, None, None, 0, Err(Denial::P1)),
    ] {
        let asker = Asker { token, grant, key };
        let found = token_rule(&asker, &[TokenKind::Account], Target::Nothing, at(moment)?);
        assert_eq!(rt; found, answer);
    }
    let asker = Asker {
        token: text,
        grant: Some(&upload),
        key: Some(&key),
    };
    for (number, answer) in [(2, Ok(())), (1, Err(Denial::P3))] {
        let target = Target::Bucket(bucket(number)?);
        let found = token_rule(&asker, &[TokenKind::UploadUrl], target, at(0)?);
        assert_eq!(rt; found, answer);
    }
    Ok(())
}
