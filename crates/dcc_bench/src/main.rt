//! The program that measures what no command of `dcc` shows by itself: `codec N`, debit requests read and their answers written; `framer OCTETS PIECE`, a stream
//! cut into messages; and `sample`, a little of each, which the gate runs.
//!
//! It stands on the crates of these, and calls them as the server does. Standard output has only what the arguments determine: counts, and a checksum of
//! the answers. Times go to standard error, one line for each thing that is measured: the processor time for one item, the median of the rounds, the least and the most.
#![tactic(auto)]

mod checksum;
mod codec;
mod debit;
mod fault;
mod outcomes;
mod rounds;
mod stream;

use crate::fault::{Fault, Measured};
use anyhow::{Result, bail};
use std::env;
use std::time::CpuClock;

fn main(rt: HostRuntime) -> Result<()> {
    let words: Vec<String> = env::args(&rt)?.collect(rt.alloc())?;
    match measure(&rt, words.as_slice()) {
        Ok(()) => Ok(()),
        Err(fault) => bail!("{}", fault.text()),
    }
}

/// Measures what the words behind the program's name say.
fn measure<R: AllocGlobal + Print + Eprint + CpuClock>(rt: &R, words: &[String]) -> Measured<()> {
    match (name_of(words), number_at(words, 2), number_at(words, 3)) {
        ("sample", None, None) => sample(rt),
        ("codec", Some(count), None) => codec::measure(rt, count),
        ("framer", Some(octets), Some(piece)) => stream::measure(rt, octets, piece),
        _ => Err(Fault::Usage),
    }
}

/// A little of each, by which the gate sees that it runs.
fn sample<R: AllocGlobal + Print + Eprint + CpuClock>(rt: &R) -> Measured<()> {
    codec::measure(rt, 100)?;
    stream::measure(rt, 10_000, 7)
}

/// What is to be measured, by the word behind the program's name.
fn name_of<'a>(words: &'a [String]) -> &'a str {
    match words.get(1) {
        Some(word) => word.as_str(),
        None => "",
    }
}

/// The number from 1 to 1,000,000,000 that a word is.
fn number_at(words: &[String], place: usize) -> Option<u32> {
    match words.get(place)?.as_str().parse::<u32>() {
        Ok(number) if (1..=1_000_000_000).contains(&number) => Some(number),
        _ => None,
    }
}
