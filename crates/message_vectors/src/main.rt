// Runs messages between boards at each limit of document 02, T-01, and prints a line for each step: the inputs, then the answer. The file
// `stdout` beside src/ says what must be printed; it was written by hand from document 02, whose sentences stand beside each table of inputs.
#![tactic(auto)]

mod messages;
mod operations;
mod print;
mod store;

use std::io;

fn main(rt: HostRuntime) -> io::Result<()> {
    messages::run_messages(&rt)?;
    operations::run_operations(&rt)
}
