//! Reads a table of messages on standard input, one to a line, and prints what reading each of them answers.
#![tactic(auto)]

mod answer;
mod case;
mod parts;
mod writing_back;

use answer::print_answer;
use case::Case;
use std::io::{BufRead, BufReader};

fn print_answers(rt: &HostRuntime) -> anyhow::Result<()> {
    for line in BufReader::new(rt.alloc(), rt.stdin())?.lines(rt.alloc()) {
        let line = line?;
        let case = Case::parse(rt.alloc(), line.as_str())?;
        print_answer(rt, &case)?;
    }
    Ok(())
}

fn main(rt: HostRuntime) -> anyhow::Result<()> {
    print_answers(&rt)
}
