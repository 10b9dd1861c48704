//! An index of many versions in 1,000 folders, for bench/index.sh: `bench_index WHAT ROWS TIMES`. It prints a
//! sum of what it got each time.
#![tactic(auto)]

ghost use Rattle.std.specs.Prelude.{◌≡◌, ◌<◌};

mod names;
mod pages;
mod rows;
mod versions;

use pages::{Shown, pages};
use rows::{index_of, seek};
use std::alloc::Global;
use std::env;
use std::marker::Brand;
use std::process::ExitCode;
use std::rt::Env;
use std::sync::ledger::Blank;
use versions::versions_of;

// What the words after the program's name ask for.
#[derive(Drop)]
struct Order {
    what: String,
    rows: u64,
    times: u64,
}

fn words<R: Env + AllocGlobal>(rt: &R) -> Option<Order> {
    let args = env::args(rt).ok()?;
    let mut words = args.skip(1);
    let what = words.next()?;
    let rows = words.next()?.parse::<u64>().ok()?;
    let times = words.next()?.parse::<u64>().ok()?;
    Some(Order { what, rows, times })
}

// An index of numbers, and so many seeks in it.
fn sought(alloc: Global, rows: u64, times: u64) -> Option<u64> {
    let index = index_of(alloc, rows)?;
    seek::<Brand>(alloc, &index, Blank::new(1), rows, times)
}

// An index of versions, and so many pages of it.
fn paged(alloc: Global, shown: Shown, rows: u64, times: u64) -> Option<u64> {
    let index = versions_of(alloc, rows)?;
    pages::<Brand>(alloc, &index, shown, Blank::new(1), rows, times)
}

fn sum(alloc: Global, order: &Order) -> Option<u64> {
    let (rows, times) = (order.rows, order.times);
    match order.what.as_str() {
        "seek" => sought(alloc, rows, times),
        "names" => paged(alloc, Shown::Names, rows, times),
        "folders" => paged(alloc, Shown::Folders, rows, times),
        "versions" => paged(alloc, Shown::Versions, rows, times),
        _ => None,
    }
}

fn main(rt: HostRuntime) -> ExitCode {
    let Some(order) = words(&rt) else {
        return ExitCode::from(1);
    };
    let Some(sum) = sum(rt.alloc(), &order) else {
        return ExitCode::from(2);
    };
    match println!(rt; "{sum}") {
        Ok(()) => ExitCode::from(0),
        Err(_) => ExitCode::from(6),
    }
}
