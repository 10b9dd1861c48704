//! Tests of paths, heads, connections, scripts, workloads and of whole runs of the server, by their
//! public calls.
#![tactic(auto)]

#[cfg(test)]
mod connections;
#[cfg(test)]
mod heads;
#[cfg(test)]
mod paths;
#[cfg(test)]
mod replay;
#[cfg(test)]
mod replies;
#[cfg(test)]
mod script;
#[cfg(test)]
mod workloads;
