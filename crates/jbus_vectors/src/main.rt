// Runs J-Bus interrupts at each limit of document 02, T-14, and prints a line for each step: the inputs, then the answer. The file `stdout`
// beside src/ says what must be printed; it was made from document 02 and from Table 5-3 of source document 000 by other means.
#![tactic(auto)]

mod print;
mod readings;
mod writings;

use std::io;

fn main(rt: HostRuntime) -> io::Result<()> {
    readings::run_readings(&rt)?;
    readings::run_bits(&rt)?;
    writings::run_writings(&rt)?;
    writings::run_agents(&rt)?;
    writings::run_pairs(&rt)
}
