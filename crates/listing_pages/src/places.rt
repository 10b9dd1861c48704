//! Where a listing goes on.

ghost use Rattle.std.specs.Prelude.{◌≡◌, ◌<◌, ◌++◌, [], ◌∷◌, IfOk, length};
ghost use Rattle.b2_base.specs.declared.numbers.TheConstants.{LAST_VERSION};
ghost use Rattle.listing_pages.specs.PageOf.{IsDelimiter};
ghost use Rattle.listing_pages.specs.Places.{after_folder, after_name, after_version, begin_at, first_of_name};

use crate::ask::Ask;
use crate::folders::folder_under;
use b2_base::{Blob, BucketNum, LAST_VERSION, Memory, VersionNum};
use std::alloc::Global;
use version_index::{Spot, first_spot};

/// The number above those of all versions of a name.
fn last_number() -> VersionNum
    ensures { result ≡ LAST_VERSION }
{
    match VersionNum::new(LAST_VERSION) {
        Some(num) => num,
        None => unreachable!(),
    }
}

// The bytes of the name, in the memory that the place had for its own.
fn bytes_in(place: Spot, name: &[u8]) -> Result<Vec<u8>, Memory>
    ensures { IfOk result (λ bytes. bytes.items ≡ name.now) }
{
    let mut bytes = place.name.into_vec();
    bytes.clear();
    bytes.extend_from_slice(name)?;
    Ok(bytes)
}

// The newest version of the name, whatever its number.
fn newest_of(place: Spot, bucket: BucketNum, name: &[u8]) -> Result<Spot, Memory>
    ensures { IfOk result (λ s. s ≡ first_of_name bucket name.now) }
{
    let name = Blob::of(bytes_in(place, name)?);
    let num = last_number();
    Ok(Spot { bucket, name, num })
}

/// The first version of a later name.
pub(crate) fn past_name(place: Spot, bucket: BucketNum, name: &[u8]) -> Result<Spot, Memory>
    ensures { IfOk result (λ s. s ≡ after_name bucket name.now) }
{
    let mut bytes = bytes_in(place, name)?;
    bytes.push(0)?;
    let num = last_number();
    Ok(Spot {
        bucket,
        name: Blob::of(bytes),
        num,
    })
}

/// The next version of the name, or the first of a later one.
pub(crate) fn past_version(
    place: Spot,
    bucket: BucketNum,
    name: &[u8],
    num: VersionNum,
) -> Result<Spot, Memory>
    ensures { IfOk result (λ s. s ≡ after_version bucket name.now num) }
{
    let number = num.get();
    if number == 0 {
        return past_name(place, bucket, name);
    }
    match VersionNum::new(number - 1) {
        Some(num) => {
            let name = Blob::of(bytes_in(place, name)?);
            Ok(Spot { bucket, name, num })
        }
        None => unreachable!(),
    }
}

/// The first version of a name that is after the folder and not in it.
pub(crate) fn past_folder(place: Spot, bucket: BucketNum, folder: &str) -> Result<Spot, Memory>
    requires { 0 < length folder.now }
    ensures { IfOk result (λ s. s ≡ after_folder bucket folder.now) }
{
    let mut bytes = bytes_in(place, folder.as_bytes())?;
    let last = bytes.len() - 1;
    bytes[last] += 1;
    let num = last_number();
    Ok(Spot {
        bucket,
        name: Blob::of(bytes),
        num,
    })
}

/// Where the listing begins: no row of it stands before.
pub(crate) fn first_place(alloc: Global, ask: &Ask, num: Option<VersionNum>) -> Result<Spot, Memory>
    requires { IsDelimiter ask.now.delimiter }
    ensures { IfOk result (λ s. s ≡ begin_at ask.now num) }
{
    let place = first_spot(alloc, ask.bucket);
    let start = ask.start.get();
    if ask.start < ask.prefix {
        return newest_of(place, ask.bucket, ask.prefix.get().as_bytes());
    }
    match folder_under(ask, start) {
        Some(folder) if folder != start => past_folder(place, ask.bucket, folder),
        Some(_) => newest_of(place, ask.bucket, start.as_bytes()),
        None => {
            let name = Blob::of(bytes_in(place, start.as_bytes())?);
            let num = num.unwrap_or(last_number());
            Ok(Spot {
                bucket: ask.bucket,
                name,
                num,
            })
        }
    }
}
