//! Rows that come and go.

ghost use Rattle.std.specs.Prelude.{◌≡◌, ◌<◌, IfOk};

use b2_base::{Blob, BucketNum, LAST_VERSION, VersionNum};
use std::alloc::Global;
use std::marker::Brand;
use std::sync::ledger::{Blank, Ledger};
use std::test::Fail;
use version_index::{Index, Spot, Steps};

fn spot(alloc: Global, bucket: u32, name: &[u8], num: u64) -> Result<Spot, Fail>
    ensures { IfOk result (λ s. s.num ≡ num) }
{
    let bucket = BucketNum::new(bucket).ok_or("bucket")?;
    let name = Blob::copy(alloc, name).ok().ok_or("memory")?;
    let Some(num) = VersionNum::new(num) else {
        return Err(Fail::from("number"));
    };
    Ok(Spot { bucket, name, num })
}

// Of each bucket and name the number of the newest version.
fn newest<L: Ledger>(
    alloc: Global,
    blank: Blank,
    names: &[(u32, &[u8])],
) -> Result<Vec<Option<u64>>, Fail>
    requires name { blank.name ≡ L.name }
    requires parts { blank.parts ≡ L.parts }
    requires some { 0 < L.parts }
{
    let mut steps = Steps::<L>::new(blank);
    let mut index = Index::new(alloc);
    for (bucket, name, num) in [(1, b"a", 1), (1, b"a", 2), (1, b"b", 3), (2, b"a", 4)] {
        let s = spot(alloc, bucket, name, num)?;
        if index.get(&s).is_none() {
            index.insert(s, num).ok().ok_or("memory")?;
        }
    }
    let mut found = Vec::new(alloc);
    for (bucket, name) in names {
        let s = spot(alloc, *bucket, name, LAST_VERSION)?;
        let row = index.first_of(&s, &mut steps);
        found.push(row.map(|r| *r.1))?;
    }
    Ok(found)
}

#[test]
fn newest_rows(rt: HostRuntime) -> Result<(), Fail> {
    let names: [(u32, &[u8]); 5] = [(1, b"a"), (1, b"b"), (2, b"a"), (1, b""), (2, b"b")];
    let found = newest::<Brand>(rt.alloc(), Blank::new(1), &names)?;
    assert_eq!(rt;
        found.as_slice(),
        [Some(2), Some(3), Some(4), None, None].as_slice()
    );
    Ok(())
}
