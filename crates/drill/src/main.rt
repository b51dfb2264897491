// Drill: reads a tape from standard input and prints what the machine did. One byte more than a tape may have is read, to know a longer one.
#![tactic(auto)]

use drill_text::{TAPE_MOST, TEXT_MOST, drill_input};
use input::read_input;
use std::io;
use std::io::Write;

fn main(rt: HostRuntime) -> io::Result<()> {
    let mut tape = [0u8; TAPE_MOST + 1];
    let read = read_input(&mut rt.stdin(), &mut tape);
    let input = read.ok().map(|size| &tape[..size]);
    let mut text = [0u8; TEXT_MOST];
    let count = drill_input(input, &mut text).unwrap();
    rt.stdout().write_all(&text[..count])
}
