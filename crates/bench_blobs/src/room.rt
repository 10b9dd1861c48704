//! Room is taken and returned.

use extent_space::{BLOCK, Space};
use std::alloc::Global;

/// A space with so many holes, the i-th of i blocks: none of those before it has room for the next.
pub fn with_holes(alloc: Global, holes: u64) -> Option<Space> {
    let mut space = Space::from_used(alloc, &[], 1 << 62).ok()?;
    for before in 0..holes {
        let len = (before + 1).checked_mul(BLOCK)?;
        let Ok(hole) = space.take(len) else {
            return None;
        };
        let Ok(_between) = space.take(len) else {
            return None;
        };
        space.give_back(hole).ok()?;
    }
    Some(space)
}

/// Takes room for so many blocks and returns it, so many times; the sum of the first blocks.
pub fn take_and_return(space: &mut Space, blocks: u64, times: u64) -> Option<u64> {
    let len = blocks.checked_mul(BLOCK)?;
    let mut sum = 0u64;
    for _ in 0..times {
        let Ok(taken) = space.take(len) else {
            return None;
        };
        sum = sum.wrapping_add(taken.at / BLOCK);
        space.give_back(taken).ok()?;
    }
    Some(sum)
}
