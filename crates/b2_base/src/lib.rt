//! The types at the bottom: texts and bytes that own what they hold, numbers with their ranges, ids, the
//! two kinds of failure, and what has one spelling.
#![tactic(auto)]

mod blob;
mod bucket_id;
mod bytes;
mod decimal;
mod digits;
mod extent;
mod failure;
mod file_id;
mod list;
mod moment;
mod number;
mod numbers;
mod owned;
mod settings;
mod spelled;
mod text;

pub use blob::Blob;
pub use bucket_id::BucketId;
pub use bytes::{behind, cut_at};
pub use decimal::{MOST_DIGITS, read_decimal, read_digits};
pub use digits::{read_eight, read_sixteen, write_eight, write_sixteen};
pub use extent::Extent;
pub use failure::{Memory, Or};
pub use file_id::FileId;
pub use list::List;
pub use moment::{LAST_MOMENT, Moment};
pub use number::{Number32, Number64};
pub use numbers::{BucketNum, ConnNum, KeyNum, LAST_VERSION, VersionNum};
pub use owned::{Holds, Owned};
pub use settings::Settings;
pub use spelled::{BadRecord, LONGEST_SPELLING, Spelled};
pub use text::Text;

#[cfg(test)]
mod tests;
