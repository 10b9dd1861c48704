//! Tests of the bodies of answers, and of calls and uploads as they are read, by their public calls.
#![tactic(auto)]

#[cfg(test)]
mod bodies;
#[cfg(test)]
mod calls;
#[cfg(test)]
mod downloads;
#[cfg(test)]
mod ranges;
#[cfg(test)]
mod shapes;
#[cfg(test)]
mod uploads;
