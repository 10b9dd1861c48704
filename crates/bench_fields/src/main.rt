//! Reads calls and writes answers, for bench/calls.sh: `bench_fields WHAT TIMES`. It prints the sum of
//! what each time gave: 1 for a call that is well formed, headers, keys of an object, or bytes of a
//! body. `bench_fields WHAT show` prints what is read or written.
#![tactic(auto)]

mod answers;
mod bodies;
mod heads;
mod reads;
mod texts;
mod writes;

use answers::{account, bucket, names};
use b2_types::Shown;
use reads::{read_of, read_times};
use std::alloc::Global;
use std::env;
use std::process::ExitCode;
use std::rt::Env;
use texts::text_of;
use writes::{port_times, shown_text, shown_times};

// What the words after the program's name ask for.
#[derive(Drop)]
struct Order {
    what: String,
    times: String,
}

fn words<R: Env + AllocGlobal>(rt: &R) -> Option<Order> {
    let args = env::args(rt).ok()?;
    let mut words = args.skip(1);
    let what = words.next()?;
    let times = words.next()?;
    Some(Order { what, times })
}

// The answer of this name.
fn answer(alloc: Global, name: &str) -> Option<Shown> {
    match name {
        "write_account" | "ports_write_account" => account(alloc),
        "write_names" | "ports_write_names" => names(alloc),
        "write_bucket" | "ports_write_bucket" => bucket(alloc),
        _ => None,
    }
}

fn written(alloc: Global, what: &str, times: u64) -> Option<usize> {
    let shown = answer(alloc, what)?;
    if what.starts_with("ports_") {
        return port_times(alloc, &shown, times);
    }
    shown_times(alloc, &shown, times)
}

fn sum(alloc: Global, what: &str, times: u64) -> Option<usize> {
    if what == "none" {
        return Some(0);
    }
    let Some(read) = read_of(what) else {
        return written(alloc, what, times);
    };
    let text = text_of(alloc, what)?;
    read_times(alloc, read, text.as_bytes(), times)
}

// What is read or written.
fn shown(alloc: Global, what: &str) -> Option<String> {
    if read_of(what).is_some() {
        return text_of(alloc, what);
    }
    let shown = answer(alloc, what)?;
    shown_text(alloc, &shown)
}

fn done(alloc: Global, order: &Order) -> Option<String> {
    let what = order.what.as_str();
    if order.times.as_str() == "show" {
        return shown(alloc, what);
    }
    let times = order.times.parse::<u64>().ok()?;
    let sum = sum(alloc, what, times)?;
    format!(in alloc; "{sum}").ok()
}

fn main(rt: HostRuntime) -> ExitCode {
    let Some(order) = words(&rt) else {
        return ExitCode::from(1);
    };
    let Some(text) = done(rt.alloc(), &order) else {
        return ExitCode::from(2);
    };
    match println!(rt; "{text}") {
        Ok(()) => ExitCode::from(0),
        Err(_) => ExitCode::from(6),
    }
}
