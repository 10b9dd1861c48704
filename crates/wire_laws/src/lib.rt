//! What the body of an answer tells: two answers of a call have the same body exactly where they are the
//! same but for what no body tells.
#![tactic(auto)]

mod laws;

pub use laws::{
    told_answers, told_buckets, told_digests, told_files, told_keys, told_parts, told_refusals,
    told_whole_buckets,
};
