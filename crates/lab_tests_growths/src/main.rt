//! `lab_tests_growths CALLS`: makes each call of the lower crates that takes memory this number of times, for a script to refuse it memory. It
//! prints what each gave.
#![tactic(auto)]

mod growths;
mod person_growths;
mod record_growths;
mod results;
mod sample_results;
mod samples;
mod versions;

use crate::growths::print_growths;
use anyhow::{Context, Result, bail};

fn main(rt: HostRuntime) -> Result<()> {
    let words: Vec<String> = std::env::args(&rt)?.collect(rt.alloc())?;
    let calls = number(words.as_slice())?;
    print_growths(&rt, rt.alloc(), calls)?;
    Ok(())
}

// The number of calls that the words name.
fn number(words: &[String]) -> Result<u32> {
    match words {
        [_, calls] => calls.parse::<u32>().context("reading a number"),
        _ => bail!("lab_tests_growths takes a number of calls"),
    }
}
