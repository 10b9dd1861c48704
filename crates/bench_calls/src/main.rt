//! Does one call so many times, for the scripts in bench/: `bench_calls CALL SIZE TIMES`. It prints the sum of
//! what the call gave each time: bytes, kept headers, or keys of an object.
#![tactic(auto)]

mod call;
mod heads;
mod pieces;
mod texts;

use call::{Call, call_of};
use std::alloc::Global;
use std::env;
use std::process::ExitCode;
use std::rt::Env;

// What the words after the program's name ask for.
#[derive(Drop)]
struct Order {
    call: String,
    size: usize,
    times: u64,
}

fn words<R: Env + AllocGlobal>(rt: &R) -> Option<Order> {
    let args = env::args(rt).ok()?;
    let mut words = args.skip(1);
    let call = words.next()?;
    let size = words.next()?.parse::<usize>().ok()?;
    let times = words.next()?.parse::<u64>().ok()?;
    Some(Order { call, size, times })
}

// The call so many times. The sum keeps each of them needed.
fn repeat(alloc: Global, call: &Call, times: u64) -> Option<usize> {
    let mut sum = 0usize;
    for _ in 0..times {
        sum = sum.wrapping_add(call.once(alloc)?);
    }
    Some(sum)
}

fn sum(alloc: Global, order: &Order) -> Option<usize> {
    let call = call_of(alloc, order.call.as_str(), order.size)?;
    repeat(alloc, &call, order.times)
}

fn main(rt: HostRuntime) -> ExitCode {
    let Some(order) = words(&rt) else {
        return ExitCode::from(1);
    };
    let Some(sum) = sum(rt.alloc(), &order) else {
        return ExitCode::from(2);
    };
    match println!(rt; "{sum}") {
        Ok(()) => ExitCode::from(0),
        Err(_) => ExitCode::from(6),
    }
}
