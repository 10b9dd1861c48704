//! Takes and returns, one after another.

ghost use Rattle.std.specs.Prelude.{◌≡◌};

use b2_base::{Extent, Or};
use extent_space::{AreaEnd, Space};
use std::test::Fail;

fn extent(at: u64, len: u64) -> Extent
    ensures at { result.at ≡ at }
    ensures len { result.len ≡ len }
{
    Extent { at, len }
}

#[test]
fn first_fit(rt: HostRuntime) -> Result<(), Fail> {
    let alloc = rt.alloc();
    let mut space = Space::from_used(alloc, &[], 16_384).ok().ok_or("memory")?;
    // The length of a content, and what is taken for it.
    let takes = [
        (1, Ok(extent(0, 1))),
        (4_097, Ok(extent(4_096, 4_097))),
        (0, Ok(extent(0, 0))),
        (4_096, Ok(extent(12_288, 4_096))),
        (1, Err(Or::Fault(AreaEnd))),
        (u64::MAX, Err(Or::Fault(AreaEnd))),
    ];
    for (len, taken) in takes {
        assert_eq!(rt; space.take(len), taken, "{len}");
    }
    Ok(())
}

#[test]
fn given_back(rt: HostRuntime) -> Result<(), Fail> {
    let alloc = rt.alloc();
    let used = [extent(0, 1), extent(4_096, 4_097)];
    let Ok(mut space) = Space::from_used(alloc, &used, 16_384) else {
        return Err(Fail::from("memory"));
    };
    assert_eq!(rt; space.end(), 12_288);
    space.give_back(used[0]).ok().ok_or("memory")?;
    assert_eq!(rt; space.take(4_096), Ok(extent(0, 4_096)));
    Ok(())
}
