//! The program `bench`: its words and standard output. What is measured is described in `benchmarks`.
#![tactic(auto)]

use anyhow::Result;
use benchmarks::{perform, read_words};
use std::{env, io};

fn main(rt: HostRuntime) -> Result<()> {
    let words: Vec<String> = env::args(&rt)?.skip(1).collect(rt.alloc())?;
    perform(&rt, rt.alloc(), &mut io::writer(&rt), read_words(&words)?)
}
