//! Each call once, with values from the formats' tables.

ghost use Rattle.std.specs.Prelude.{◌≡◌, IfOk, length};

use crate::{
    BadRecord, Blob, BucketId, BucketNum, ConnNum, FileId, KeyNum, LAST_MOMENT, LAST_VERSION, List,
    MOST_DIGITS, Moment, Or, Spelled, Text, VersionNum, behind, cut_at, read_decimal, read_digits,
};
use std::alloc::{AllocError, Global};
use std::test::Fail;

#[test]
fn file_ids(rt: HostRuntime) -> Result<(), Fail> {
    let alloc = rt.alloc();
    let spelled = [
        (1, 1, "4_z00000001_f0000000000000001"),
        (0, 0, "4_z00000000_f0000000000000000"),
        (u32::MAX, LAST_VERSION, "4_zffffffff_f001fffffffffffff"),
    ];
    for (bucket, version, text) in spelled {
        let bucket = BucketNum::new(bucket).ok_or("bucket")?;
        let version = VersionNum::new(version).ok_or("version")?;
        assert_eq!(rt;
            FileId::write(alloc, bucket, version)
                .ok()
                .ok_or("memory")?
                .get(),
            text
        );
        assert_eq!(rt; FileId::read(text.as_bytes()), Some((bucket, version)));
    }
    let others = [
        "",
        "4_z00000001_f000000000000001",
        "4_z00000001_f00000000000000011",
        "4_z0000000A_f0000000000000001",
        "4_y00000001_f0000000000000001",
        "4_z00000001-f0000000000000001",
        "4_z00000001_f0020000000000000",
        "4_z0000000g_f0000000000000001",
    ];
    for text in others {
        assert_eq!(rt; FileId::read(text.as_bytes()), None, "{text}");
    }
    Ok(())
}

#[test]
fn bucket_ids(rt: HostRuntime) -> Result<(), Fail> {
    let alloc = rt.alloc();
    let spelled = [
        (0, "000000000000000000000000"),
        (1, "000000000000000000000001"),
        (u32::MAX, "0000000000000000ffffffff"),
    ];
    for (bucket, text) in spelled {
        let bucket = BucketNum::new(bucket).ok_or("bucket")?;
        assert_eq!(rt;
            BucketId::write(alloc, bucket).ok().ok_or("memory")?.get(),
            text
        );
        assert_eq!(rt; BucketId::read(text.as_bytes()), Some(bucket));
    }
    let others = [
        "",
        "00000000000000000000001",
        "0000000000000000000000001",
        "000000000000000100000000",
        "0000000000000000FFFFFFFF",
    ];
    for text in others {
        assert_eq!(rt; BucketId::read(text.as_bytes()), None, "{text}");
    }
    Ok(())
}

#[test]
fn decimals(rt: HostRuntime) -> Result<(), Fail> {
    for (text, plain, digits) in [
        ("0", Some(0), Some(0)),
        ("7", Some(7), Some(7)),
        ("007", None, Some(7)),
        (
            "9999999999999999999",
            Some(9_999_999_999_999_999_999),
            Some(9_999_999_999_999_999_999),
        ),
        ("18446744073709551615", Some(u64::MAX), None),
        ("18446744073709551616", None, None),
        ("", None, None),
        ("+1", None, None),
        ("1 ", None, None),
    ] {
        assert_eq!(rt; read_decimal(text.as_bytes()), plain, "{text}");
        assert_eq!(rt; read_digits(text.as_bytes(), MOST_DIGITS), digits, "{text}");
    }
    assert_eq!(rt; read_digits(b"12", 1), None);
    assert_eq!(rt; read_digits(b"", 0), None);
    Ok(())
}

#[test]
fn parts(rt: HostRuntime) -> Result<(), Fail> {
    let cut = (b"a".as_slice(), b"b:c".as_slice());
    assert_eq!(rt; cut_at(b':', b"a:b:c"), Some(cut));
    assert_eq!(rt; cut_at(b':', b"abc"), None);
    assert_eq!(rt; behind(b"a:", b"a:b:c"), Some(b"b:c".as_slice()));
    assert_eq!(rt; behind(b"b", b"a:b:c"), None);
    Ok(())
}

#[test]
fn ranges(rt: HostRuntime) -> Result<(), Fail> {
    for (reading, moment) in [(0, 0), (LAST_MOMENT, LAST_MOMENT), (u64::MAX, LAST_MOMENT)] {
        assert_eq!(rt; Moment::from_reading(reading).get(), moment);
    }
    let last = Moment::from_reading(LAST_MOMENT);
    assert_eq!(rt; Moment::new(LAST_MOMENT), Some(last));
    assert_eq!(rt; Moment::new(LAST_MOMENT + 1), None);
    assert_eq!(rt; VersionNum::new(LAST_VERSION + 1), None);
    assert_eq!(rt; KeyNum::new(0).ok_or("key")?.get(), 0);
    assert_eq!(rt; ConnNum::new(u32::MAX).ok_or("conn")?.get(), u32::MAX);
    Ok(())
}

#[test]
fn copies(rt: HostRuntime) -> Result<(), Fail> {
    let alloc = rt.alloc();
    assert_eq!(rt; Text::copy(alloc, "a").ok().ok_or("memory")?.get(), "a");
    assert_eq!(rt;
        Blob::copy(alloc, b"\0\xff").ok().ok_or("memory")?.get(),
        b"\0\xff".as_slice()
    );
    assert_eq!(rt; Blob::of(vec![in alloc; 7]?).get(), [7].as_slice());
    assert_eq!(rt; List::of(vec![in alloc; 1, 2]?).get(), [1, 2].as_slice());
    Ok(())
}

// A bit, as one byte.
#[derive(Clone, Copy, Debug, PartialEq, Eq)]
struct Bit(bool);

impl Spelled for Bit {
    ghost use Rattle.std.specs.Prelude.{[], ◌∷◌, if◌then◌else◌};
    ghost use Rattle.std.proofs.Common.{rules};

    ghost spelling = { λ b. (if b.0 then 1 else 0) ∷ [] };

    ghost fits = { λ b. Unit {0} };

    ghost some = { λ b h. Prim.search rules };

    ghost few = { λ b h. Prim.search rules };

    ghost whole = { λ a b x y p q e. Prim.search rules };

    fn write(&self, out: &mut [u8]) -> usize {
        out[0] = u8::from(self.0);
        1
    }

    fn read(_alloc: Global, bytes: &[u8]) -> Result<Bit, Or<BadRecord>> {
        match bytes {
            [0] => Ok(Bit(false)),
            [1] => Ok(Bit(true)),
            _ => Err(Or::Fault(BadRecord)),
        }
    }
}

fn zeros(alloc: Global, len: usize) -> Result<Vec<u8>, AllocError>
    ensures { IfOk result (λ v. length v.items ≡ len) }
{
    vec![in alloc; 0u8; len]
}

// The value that is read from what was written of it, through the bound.
fn again<S: Spelled>(alloc: Global, value: &S) -> Result<S, Or<BadRecord>>
    requires limits { S.fits value.now }
{
    let Ok(mut room) = zeros(alloc, 65_536) else {
        return Err(Or::Memory);
    };
    let len = value.write(&mut room);
    S::read(alloc, &room[..len])
}

#[test]
fn spellings(rt: HostRuntime) -> Result<(), Fail> {
    let alloc = rt.alloc();
    for bit in [Bit(false), Bit(true)] {
        let read = again(alloc, &bit);
        assert_eq!(rt; read.ok(), Some(bit));
    }
    Ok(())
}
