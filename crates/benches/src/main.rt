//! What `bench/run` cannot time by the program alone: digests, keys, links, and reading and writing a schedule. The
//! first argument says which: `digests COUNT`, `keys`, `links PACKETS`, or `schedule PAIRS`. Each line of the output
//! is a name and nanoseconds.
//! Without arguments a small workload of each runs, and its counts are printed, the same on each machine.
#![tactic(auto)]

mod digests;
mod keys;
mod links;
mod schedule;
mod times;

use std::env;
use std::test::Fail;

// The second argument as a number.
fn number_in(words: &[String]) -> Result<u32, Fail> {
    let word = words.get(2).ok_or("how many?")?;
    Ok(word.as_str().parse::<u32>()?)
}

// The second argument, which names packets.
fn packets_in(words: &[String]) -> Result<&str, Fail> {
    let word = words.get(2).ok_or("which packets?")?;
    Ok(word.as_str())
}

fn count_all(rt: &HostRuntime) -> Result<(), Fail> {
    keys::count_all(rt)?;
    links::count_all(rt)?;
    schedule::count_all(rt)
}

fn time(rt: &HostRuntime, what: &str, words: &[String]) -> Result<(), Fail> {
    match what {
        "digests" => digests::time_all(rt, number_in(words)?),
        "keys" => keys::time_all(rt),
        "links" => links::time(rt, packets_in(words)?),
        "schedule" => schedule::time_all(rt, number_in(words)?),
        _ => Err("what is to be timed?")?,
    }
}

fn main(rt: HostRuntime) -> Result<(), Fail> {
    let words: Vec<String> = env::args(&rt)?.collect(rt.alloc())?;
    match words.get(1) {
        Some(what) => time(&rt, what.as_str(), &words),
        None => count_all(&rt),
    }
}
