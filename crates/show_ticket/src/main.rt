//! Reads a ticket message on standard input and prints what its head, fields and carried records hold, or the refusal.
#![tactic(auto)]

mod carried_lines;
mod failure;
mod field_lines;
mod one_line;

use carried_lines::print_carried_records;
use failure::Failure;
use field_lines::print_fields;
use message::read_message;
use show_parts::{HeadLines, read_front};
use std::io;
use text_code::Utf8;
use ticket::Room;

fn print_ticket(rt: &HostRuntime, message: &[u8]) -> Result<(), Failure> {
    let contents = read_message(message, &Utf8, Room::largest())?;
    rt.println(HeadLines {
        items: contents.head.items(),
    })?;
    // the carried records follow where a field is refused
    print_fields(rt, message, &contents).or_else(|failure| failure.print(rt))?;
    print_carried_records(rt, message, &contents)
}

fn main(rt: HostRuntime) -> io::Result<()> {
    let message = read_front(rt.alloc(), rt.stdin())?;
    print_ticket(&rt, &message).or_else(|failure| failure.print(&rt))
}
