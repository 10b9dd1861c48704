//! Tests of the state in memory: tables of calls, uploads, copies and records, with the bodies of their
//! answers.
#![tactic(auto)]

#[cfg(test)]
mod asking;
#[cfg(test)]
mod buckets;
#[cfg(test)]
mod copies;
#[cfg(test)]
mod copying;
#[cfg(test)]
mod files;
#[cfg(test)]
mod keys;
#[cfg(test)]
mod large;
#[cfg(test)]
mod locks;
#[cfg(test)]
mod passes;
#[cfg(test)]
mod records;
#[cfg(test)]
mod steps;
#[cfg(test)]
mod store;
#[cfg(test)]
mod table;
#[cfg(test)]
mod told;
#[cfg(test)]
mod uploading;
#[cfg(test)]
mod uploads;
