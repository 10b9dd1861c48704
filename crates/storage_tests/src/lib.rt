//! Tests of the disk, of extents, of the contents of a store, of the index of versions, of its pages and of passes over it, by their public calls.
#![tactic(auto)]

#[cfg(test)]
mod blobs;
#[cfg(test)]
mod contents;
#[cfg(test)]
mod disk;
#[cfg(test)]
mod index;
#[cfg(test)]
mod numbered;
#[cfg(test)]
mod pages;
#[cfg(test)]
mod passes;
#[cfg(test)]
mod space;
