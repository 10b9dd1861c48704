//! Hands pieces of bytes to open connections, for bench/conns.sh: `bench_conns WHAT SIZE TIMES`. It prints
//! the sum of the acts that they bring.
#![tactic(auto)]

mod feed;
mod texts;

use feed::{in_pieces, interleaved};
use std::alloc::Global;
use std::env;
use std::process::ExitCode;
use std::rt::Env;
use texts::request;

// The bytes of a piece.
const PIECE: usize = 65_536;

// What the words after the program's name ask for.
#[derive(Drop)]
struct Order {
    what: String,
    size: usize,
    times: u64,
}

fn words<R: Env + AllocGlobal>(rt: &R) -> Option<Order> {
    let args = env::args(rt).ok()?;
    let mut words = args.skip(1);
    let what = words.next()?;
    let size = words.next()?.parse::<usize>().ok()?;
    let times = words.next()?.parse::<u64>().ok()?;
    Some(Order { what, size, times })
}

fn done(alloc: Global, order: &Order) -> Option<u64> {
    match order.what.as_str() {
        "none" => Some(0),
        // A body of so many bytes, in pieces.
        "body" => in_pieces(alloc, &request(alloc, 0, order.size)?, PIECE, order.times),
        // A head of some so many bytes, byte by byte.
        "bytes" => in_pieces(alloc, &request(alloc, order.size, 0)?, 1, order.times),
        // A head of some so many bytes in pieces of 64 on each of 32 connections, in turn.
        "events" => interleaved(alloc, &request(alloc, order.size, 0)?, 64, order.times),
        _ => None,
    }
}

fn main(rt: HostRuntime) -> ExitCode {
    let Some(order) = words(&rt) else {
        return ExitCode::from(1);
    };
    let Some(sum) = done(rt.alloc(), &order) else {
        return ExitCode::from(2);
    };
    match println!(rt; "{sum}") {
        Ok(()) => ExitCode::from(0),
        Err(_) => ExitCode::from(6),
    }
}
