//! Judges the policy of one call so many times, for the scripts in bench/: `bench_decisions WHAT TOKENS TIMES`.
//! It prints how many of the calls were allowed.
#![tactic(auto)]

mod calls;
mod known;
mod store;

use calls::{allowed, found};
use std::alloc::Global;
use std::env;
use std::process::ExitCode;
use std::rt::Env;
use store::{Store, store_of};

// What the words after the program's name ask for.
#[derive(Drop)]
struct Order {
    what: String,
    tokens: u32,
    times: u64,
}

fn words<R: Env + AllocGlobal>(rt: &R) -> Option<Order> {
    let args = env::args(rt).ok()?;
    let mut words = args.skip(1);
    let what = words.next()?;
    let tokens = words.next()?.parse::<u32>().ok()?;
    let times = words.next()?.parse::<u64>().ok()?;
    Some(Order {
        what,
        tokens,
        times,
    })
}

// The policy of a call with one token after the other, far apart in the store; how many were allowed.
fn policies(store: &Store, times: u64) -> u64 {
    let mut sum = 0u64;
    for turn in 0..times {
        sum = sum.wrapping_add(allowed(store, turn));
    }
    sum
}

// The same, of the look-ups alone.
fn finds(store: &Store, times: u64) -> u64 {
    let mut sum = 0u64;
    for turn in 0..times {
        sum = sum.wrapping_add(found(store, turn));
    }
    sum
}

fn sum(alloc: Global, order: &Order) -> Option<u64> {
    let store = store_of(alloc, order.tokens)?;
    match order.what.as_str() {
        "policy" => Some(policies(&store, order.times)),
        "find" => Some(finds(&store, order.times)),
        _ => None,
    }
}

fn main(rt: HostRuntime) -> ExitCode {
    let Some(order) = words(&rt) else {
        return ExitCode::from(1);
    };
    let Some(sum) = sum(rt.alloc(), &order) else {
        return ExitCode::from(2);
    };
    match println!(rt; "{sum}") {
        Ok(()) => ExitCode::from(0),
        Err(_) => ExitCode::from(6),
    }
}
