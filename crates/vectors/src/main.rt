// Runs the rows of the file `stdin` beside src/ through the library for host programs, and prints each row with its answer in numbers. The file `stdout` has
// what must be printed: values of document 01, and of document 02 where it amends 01. A line that begins with a quotation mark is a heading.
#![tactic(auto)]

mod buses;
mod caches;
mod rows;
mod tapes;

use input::read_input;
use rows::{Row, put};
use std::io;

// The answer to a row, which the first letter of its name chooses.
fn answer(to: &impl Print, letter: u8, given: Row) -> io::Result<()> {
    match letter {
        b'p' => buses::parity(to, given),
        b'l' => buses::lanes(to, given),
        b't' => buses::transfer(to, given),
        b'a' => buses::answer(to, given),
        b'c' => buses::class(to, given),
        b'h' => buses::handler(to, given),
        b'w' => tapes::writing(to, given),
        b'm' => caches::machine(to, given),
        b'n' => caches::newest(to, given),
        b's' => caches::start(to, given),
        b'u' => caches::units(to, given),
        b'r' => tapes::read_row(to, given),
        _ => tapes::drill_row(to, given),
    }
}

// A line, and where it is a row, its answer.
fn line(to: &impl Print, text: &[u8]) -> io::Result<()> {
    put(to, text)?;
    match text.first() {
        None | Some(b'"') => {}
        Some(&letter) => {
            print!(to; ":")?;
            answer(to, letter, Row::parse(text, letter))?;
        }
    }
    println!(to; "")
}

// What was read before a read that failed is run all the same. A line that does not end is none.
fn main(rt: HostRuntime) -> io::Result<()> {
    let mut text = [0u8; 131072];
    let size = read_input(&mut rt.stdin(), &mut text).unwrap_or_else(|error| error.size);
    for ended in text[..size].split_inclusive(|&b| b == b'\n') {
        if let Some(text) = ended.strip_suffix(b"\n") {
            line(&rt, text)?;
        }
    }
    Ok(())
}
