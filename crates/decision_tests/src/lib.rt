//! Tests of the decisions on tokens, keys, buckets, versions and large files, by their public calls.
#![tactic(auto)]

#[cfg(test)]
mod buckets;
#[cfg(test)]
mod copies;
#[cfg(test)]
mod grants;
#[cfg(test)]
mod keys;
#[cfg(test)]
mod large;
#[cfg(test)]
mod lifecycle;
#[cfg(test)]
mod locks;
#[cfg(test)]
mod policy;
#[cfg(test)]
mod versions;
