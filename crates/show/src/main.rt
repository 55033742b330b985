//! Reads a ticket message on standard input and prints what its head holds, or the refusal.
#![tactic(auto)]

use head::Head;
use refusal::Refusal;
use show_parts::{HeadLines, read_front};
use std::io;

fn main(rt: HostRuntime) -> io::Result<()> {
    let message = read_front(rt.alloc(), rt.stdin())?;
    match Head::read(&message) {
        Ok(head) => rt.println(HeadLines {
            items: head.items(),
        }),
        Err(fault) => rt.println(Refusal::from(fault)),
    }
}
